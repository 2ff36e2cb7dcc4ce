//! The kinds of questions by their words.
ghost use Rattle.std.specs.Prelude.{◌≡◌};
ghost use Rattle.command_line.specs.Kinds.{kind_named};

/// A kind of questions.
#[derive(Clone, Copy, Debug, PartialEq, Eq)]
pub(crate) enum Kind {
    Circle,
    Sphere,
    Rectangle,
    Parallelogram,
    Strip,
    Annulus,
    Empty,
    Kgon,
    Distance,
    Centres,
    Furthest,
    Shell,
}

/// The kind that the word names.
#[tactic(auto, unfolding(crate::specs::Kinds::kind_named))]
pub(crate) fn kind_named(word: &str) -> Option<Kind>
    ensures { result ≡ kind_named word.now }
{
    match word {
        "circle" => Some(Kind::Circle),
        "sphere" => Some(Kind::Sphere),
        "rectangle" => Some(Kind::Rectangle),
        "parallelogram" => Some(Kind::Parallelogram),
        "strip" => Some(Kind::Strip),
        "annulus" => Some(Kind::Annulus),
        "empty" => Some(Kind::Empty),
        "kgon" => Some(Kind::Kgon),
        "distance" => Some(Kind::Distance),
        "centres" => Some(Kind::Centres),
        "furthest" => Some(Kind::Furthest),
        "shell" => Some(Kind::Shell),
        _ => None,
    }
}
