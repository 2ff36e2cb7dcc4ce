//! The widths of the rows of potentials.
ghost use Rattle.std.specs.Prelude.{◌≡◌, ◌≤◌, [], ◌∷◌, MatchOption};
ghost use Rattle.bounds_model.specs.AnswerText.Kinds.{triangle};

/// The widths of the rows that are left: so many rows of each width, down to 1.
#[derive(Drop)]
pub(crate) struct RowWidths {
    /// How many rows there are of each width.
    layers: u32,
    /// The width of the next row, or 0 where no row is left.
    width: u32,
    /// How many rows of this width are left.
    left: u32,
    ghost some_layers: { 1 ≤ layers },
    ghost some_left: { 1 ≤ left },
}

impl RowWidths {
    ghost use Rattle.witness_format.specs.Rows.{widths_left};

    /// `layers` rows of each width, from the longest down to 1.
    pub(crate) fn new(longest: u32, layers: u32) -> RowWidths
        ensures { widths_left result ≡ triangle longest layers }
    {
        if layers == 0 {
            return RowWidths {
                layers: 1,
                width: 0,
                left: 1,
            };
        }
        RowWidths {
            layers,
            width: longest,
            left: layers,
        }
    }

    /// The width of the next row, which is then behind.
    pub(crate) fn next(&mut self) -> Option<u32>
        ensures { MatchOption result (widths_left self.old ≡ []) (λ width. widths_left self.old ≡ width ∷ widths_left self.new) }
    {
        let width = self.width;
        if width == 0 {
            return None;
        }
        *self = self.behind();
        Some(width)
    }

    /// The rows behind the next one.
    fn behind(&self) -> RowWidths
        requires { 1 ≤ self.now.width }
        ensures { widths_left self.now ≡ self.now.width ∷ widths_left result }
    {
        let layers = self.layers;
        if self.left > 1 {
            return RowWidths {
                layers,
                width: self.width,
                left: self.left - 1,
            };
        }
        RowWidths {
            layers,
            width: self.width - 1,
            left: layers,
        }
    }
}
