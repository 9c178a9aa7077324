// What a source is read for.
ghost use Rattle.std.specs.Prelude.{◌≡◌};
ghost use Rattle.mw_top.specs.Purposes.{is_noted, takes_proofs};

use mw_words::Options;

/// What a source is read for.
#[derive(Clone, Copy)]
pub enum Purpose {
    /// Its commands are answered.
    Run(Options),
    /// Its proof texts are checked. The side of a condition may take so many steps where a term is tested to be normal.
    Check { max: u64 },
}

impl Purpose {
    /// Whether each line outside a proof text is marked.
    pub fn notes(self) -> bool
        ensures { result ≡ is_noted self }
    {
        match self {
            Purpose::Run(options) => options.proof,
            Purpose::Check { .. } => false,
        }
    }

    /// Whether proofs are units of their own.
    pub fn takes_proofs(self) -> bool
        ensures { result ≡ takes_proofs self }
    {
        match self {
            Purpose::Run(_) => false,
            Purpose::Check { .. } => true,
        }
    }
}
