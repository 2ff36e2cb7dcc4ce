//! The kinds of answers by their names.
ghost use Rattle.std.specs.Prelude.{find};
ghost use Rattle.std.specs.Str.{bytes_eq};
ghost use Rattle.bounds_model.specs.AnswerText.Kinds.{kinds};
ghost use Rattle.witness_format.specs.Kinds.{enclosing, format_of, others};
ghost use Rattle.answer_lines.specs.Outcomes.{Finds};

/// A kind of answers.
#[derive(Clone, Copy, Debug, PartialEq, Eq)]
pub(crate) enum AnswerKind {
    Circle,
    Sphere,
    Rectangle,
    Parallelogram,
    Strip,
    Annulus,
    Empty,
    Kgon,
    Distance,
    Centres,
    Furthest,
    Four,
    Shell,
}

/// The kind of this name.
pub(crate) fn kind_of(name: &[u8]) -> Option<AnswerKind>
    ensures { Finds format_of result (find (λ kind. bytes_eq kind.name name.now) kinds) }
{
    match enclosing_kind(name) {
        Some(kind) => Some(kind),
        None => other_kind(name),
    }
}

/// The kind of this name, among those of one object around all points.
fn enclosing_kind(name: &[u8]) -> Option<AnswerKind>
    ensures { Finds format_of result (find (λ kind. bytes_eq kind.name name.now) enclosing) }
{
    if name == b"circle".as_slice() {
        Some(AnswerKind::Circle)
    } else if name == b"sphere".as_slice() {
        Some(AnswerKind::Sphere)
    } else if name == b"rectangle".as_slice() {
        Some(AnswerKind::Rectangle)
    } else if name == b"strip".as_slice() {
        Some(AnswerKind::Strip)
    } else if name == b"parallelogram".as_slice() {
        Some(AnswerKind::Parallelogram)
    } else if name == b"annulus".as_slice() {
        Some(AnswerKind::Annulus)
    } else {
        None
    }
}

/// The kind of this name, among the others.
fn other_kind(name: &[u8]) -> Option<AnswerKind>
    ensures { Finds format_of result (find (λ kind. bytes_eq kind.name name.now) others) }
{
    if name == b"empty".as_slice() {
        Some(AnswerKind::Empty)
    } else if name == b"kgon".as_slice() {
        Some(AnswerKind::Kgon)
    } else if name == b"distance".as_slice() {
        Some(AnswerKind::Distance)
    } else if name == b"centres".as_slice() {
        Some(AnswerKind::Centres)
    } else if name == b"furthest".as_slice() {
        Some(AnswerKind::Furthest)
    } else if name == b"centres4".as_slice() {
        Some(AnswerKind::Four)
    } else if name == b"shell".as_slice() {
        Some(AnswerKind::Shell)
    } else {
        None
    }
}
