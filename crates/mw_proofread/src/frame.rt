// Groups that are open.
ghost use Rattle.std.specs.Prelude.{◌↔◌, ℕ, suc, MatchOption, IsTrue};
ghost use Rattle.mw_proofread.specs.Reading.{IsCount};

/// A group that is open, of an item's condition.
#[derive(Clone, Copy)]
pub struct Frame {
    /// How many of the item's groups are still to be closed, this one among them; none where any number may be.
    pub wanted: Option<u64>,
}

impl Frame {
    /// Where one group more is closed.
    pub fn closed(self) -> Option<Frame>
        ensures { MatchOption result ((n : ℕ) → ¬ IsCount self.wanted (suc n)) (λ f. (n : ℕ)
            → IsCount self.wanted (suc n) ↔ IsCount f.wanted n) }
    {
        match self.wanted {
            None => Some(self),
            Some(0) => None,
            Some(wanted) => Some(Frame {
                wanted: Some(wanted - 1),
            }),
        }
    }

    /// Whether all of them may be closed.
    pub fn is_done(self) -> bool
        ensures { IsTrue result ↔ IsCount self.wanted 0 }
    {
        matches!(self.wanted, None | Some(0))
    }
}
