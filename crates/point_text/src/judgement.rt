//! The lines of a file, judged for the sets that are asked of.
ghost use Rattle.std.specs.Prelude.{◌≡◌, ◌↔◌, ◌≢◌, ◌≤◌, ◌<◌, ◌+◌, ◌^◌, IsTrue, Err, Some, true, List, [], ◌∷◌, ◌++◌, ℕ, length, MatchResult};
ghost use Rattle.std.specs.Option.{is_some};
ghost use Rattle.bounds_model.specs.Plane.{PlanePoint};
ghost use Rattle.bounds_model.specs.Space.{SpacePoint};
ghost use Rattle.bounds_model.specs.Asks as asks;
ghost use Rattle.bounds_model.specs.PointText as model;
ghost use Rattle.bounded_coords.specs.Asked.{shaped};
ghost use Rattle.point_text.specs.declared.text.TextFault.TheVariants.{WrongSets, OutOfMemory};
ghost use Rattle.point_text.specs.Refusals.{Answers};
ghost use Rattle.point_text.specs.Kept.{Keeps};
ghost use Rattle.point_text.specs.Fields.{AreFields};
ghost use Rattle.point_text.specs.Files.{file_of_fields};
ghost use Rattle.point_text.specs.Keeping.{keeps_point, fields_keep_point};
ghost use Rattle.point_text.specs.Judged.{IsJudgement, HasJudged, WantsMemory, fault_of, lines_judged};
ghost use Rattle.point_text.specs.Judged.{plane_outcome, space_outcome};

use crate::TextFault;
use crate::fields::Fields;
use crate::judge::Judge;
use crate::kept::KeptSets;
use crate::line::TextPoint;
use bounded_coords::{OwnedSets, Point2, Point3, Points, Shape};
use std::alloc::Global;

/// The lines so far, judged as sets of the plane or of space.
#[derive(Drop)]
pub(crate) enum Judgement {
    /// As one set of the plane, which may have no points, or not.
    Plane(Judge<Point2>, bool),
    /// As sets of space with points, two or one.
    Space(Judge<Point3>, bool),
}

impl Judgement {
    /// No line so far. It takes no memory.
    pub(crate) fn new(alloc: Global, shape: Shape) -> Judgement
        ensures judged { IsJudgement result (shaped shape) [] }
        ensures lines { lines_judged result ≡ 0 }
        ensures fresh { WantsMemory result → ⊥ }
    {
        match shape {
            Shape::OnePlane => Judgement::Plane(Judge::new(alloc), false),
            Shape::PlaneOrBare => Judgement::Plane(Judge::new(alloc), true),
            Shape::OneSpace => Judgement::Space(Judge::new(alloc), false),
            Shape::TwoSpace => Judgement::Space(Judge::new(alloc), true),
        }
    }

    /// Judges the next line, whose fields come to this.
    pub(crate) fn take(&mut self, fields: Fields)
        requires { lines_judged self.old + 2 < 2 ^ 32 }
        ensures judged { (shape : asks.Shape) (before : List (List (List ℕ))) (line : List (List ℕ)) → IsJudgement self.old shape before
            → AreFields fields line
            → IsJudgement self.new shape (before ++ line ∷ []) }
        ensures lines { lines_judged self.new ≤ lines_judged self.old + 1 }
        ensures failed { WantsMemory self.old → WantsMemory self.new }
    {
        match self {
            Judgement::Plane(judge, _) => judge.take(Point2::say(fields)),
            Judgement::Space(judge, _) => judge.take(Point3::say(fields)),
        }
    }

    /// Judges the next line, given whole and without its line feed.
    pub(crate) fn take_line(&mut self, line: &[u8])
        requires { lines_judged self.old + 2 < 2 ^ 32 }
        ensures judged { (shape : asks.Shape) (before : List (List (List ℕ))) → IsJudgement self.old shape before
            → IsJudgement self.new shape (before ++ model.fields_of (model.content line.now) ∷ []) }
        ensures lines { lines_judged self.new ≤ lines_judged self.old + 1 }
        ensures failed { WantsMemory self.old → WantsMemory self.new }
    {
        match self {
            Judgement::Plane(judge, _) => judge.take_line(line),
            Judgement::Space(judge, _) => judge.take_line(line),
        }
    }

    /// Whether there was a fault, which stays the first whatever lines follow.
    pub(crate) fn has_fault(&self) -> bool
        ensures { result ≡ is_some (fault_of self.now) }
    {
        match self {
            Judgement::Plane(judge, _) => judge.has_fault(),
            Judgement::Space(judge, _) => judge.has_fault(),
        }
    }

    /// Whether memory was refused.
    pub(crate) fn has_failed(&self) -> bool
        ensures { IsTrue result ↔ WantsMemory self.now }
    {
        match self {
            Judgement::Plane(judge, _) => judge.has_failed(),
            Judgement::Space(judge, _) => judge.has_failed(),
        }
    }

    /// The sets that the lines say, or why they are refused.
    pub(crate) fn end(self) -> Result<OwnedSets, TextFault>
        ensures sets { (shape : asks.Shape) (lines : List (List (List ℕ))) → IsJudgement self shape lines
            → Answers result (file_of_fields shape lines) }
        ensures memory { result ≡ Err OutOfMemory → (shape : asks.Shape) (lines : List (List (List ℕ))) → IsJudgement self shape lines
            → fields_keep_point shape lines ≡ true }
        ensures failed { WantsMemory self → result ≡ Err OutOfMemory }
    {
        match self {
            Judgement::Plane(judge, may_be_bare) => plane_file(judge, may_be_bare),
            Judgement::Space(judge, are_two) => space_file(judge, are_two),
        }
    }
}

/// What lines come to that were judged as one set of the plane, which may have no points, or not.
fn plane_file(judge: Judge<Point2>, may_be_bare: bool) -> Result<OwnedSets, TextFault>
    ensures sets { (lines : List (model.Meaning PlanePoint)) → HasJudged judge lines → Answers result (model.judged (plane_outcome may_be_bare) lines) }
    ensures memory { result ≡ Err OutOfMemory → (lines : List (model.Meaning PlanePoint)) → HasJudged judge lines → keeps_point lines ≡ true }
    ensures failed { judge.fault ≡ Some OutOfMemory → result ≡ Err OutOfMemory }
{
    match judge.end() {
        Err(fault) => Err(fault),
        Ok((kept, scale)) => match plane_set(kept, may_be_bare) {
            Err(fault) => Err(fault),
            Ok(sets) => Ok(sets.with_scale(scale)),
        },
    }
}

/// What lines come to that were judged as two sets of space, or as one.
fn space_file(judge: Judge<Point3>, are_two: bool) -> Result<OwnedSets, TextFault>
    ensures sets { (lines : List (model.Meaning SpacePoint)) → HasJudged judge lines → Answers result (model.judged (space_outcome are_two) lines) }
    ensures memory { result ≡ Err OutOfMemory → (lines : List (model.Meaning SpacePoint)) → HasJudged judge lines → keeps_point lines ≡ true }
    ensures failed { judge.fault ≡ Some OutOfMemory → result ≡ Err OutOfMemory }
{
    match judge.end() {
        Err(fault) => Err(fault),
        Ok((kept, scale)) => match space_sets_of(kept, are_two) {
            Err(fault) => Err(fault),
            Ok(sets) => Ok(sets.with_scale(scale)),
        },
    }
}

/// Two sets of space, or one.
fn space_sets_of(kept: KeptSets<Point3>, are_two: bool) -> Result<OwnedSets, TextFault>
    ensures sets { (sets : List (List SpacePoint)) → Keeps kept sets → Answers result (model.at_scale 1 (space_outcome are_two sets)) }
    ensures memory { result ≢ Err OutOfMemory }
{
    if are_two {
        space_sets(kept)
    } else {
        space_set(kept)
    }
}

/// The one set.
fn one_set<P: TextPoint>(kept: KeptSets<P>) -> Result<Points<P>, TextFault>
    ensures sets { (sets : List (List P)) → Keeps kept sets →
        MatchResult result (λ points. sets ≡ points ∷ []) (λ fault. (fault ≡ WrongSets (length sets)) × (length sets ≢ 1)) }
    ensures memory { result ≢ Err OutOfMemory }
{
    if kept.count != 1 {
        return Err(TextFault::WrongSets(kept.count));
    }
    let KeptSets { first, .. } = kept;
    Ok(first)
}

/// One set of the plane, which may have no points, or not.
fn plane_set(kept: KeptSets<Point2>, may_be_bare: bool) -> Result<OwnedSets, TextFault>
    ensures sets { (sets : List (List PlanePoint)) → Keeps kept sets → Answers result (model.at_scale 1 (plane_outcome may_be_bare sets)) }
    ensures memory { result ≢ Err OutOfMemory }
{
    let points = one_set(kept)?;
    if points.is_empty() && !may_be_bare {
        return Err(TextFault::NoPoints(1));
    }
    Ok(OwnedSets::plane(points))
}

/// One set of space.
fn space_set(kept: KeptSets<Point3>) -> Result<OwnedSets, TextFault>
    ensures sets { (sets : List (List SpacePoint)) → Keeps kept sets → Answers result (model.at_scale 1 (model.space_set sets)) }
    ensures memory { result ≢ Err OutOfMemory }
{
    let points = one_set(kept)?;
    if points.is_empty() {
        return Err(TextFault::NoPoints(1));
    }
    Ok(OwnedSets::space(points))
}

/// Two sets of space.
fn space_sets(kept: KeptSets<Point3>) -> Result<OwnedSets, TextFault>
    ensures sets { (sets : List (List SpacePoint)) → Keeps kept sets → Answers result (model.at_scale 1 (model.space_sets sets)) }
    ensures memory { result ≢ Err OutOfMemory }
{
    if kept.count != 2 {
        return Err(TextFault::WrongSets(kept.count));
    }
    let KeptSets { first, second, .. } = kept;
    if first.is_empty() {
        return Err(TextFault::NoPoints(1));
    }
    if second.is_empty() {
        return Err(TextFault::NoPoints(2));
    }
    Ok(OwnedSets::two(first, second))
}
