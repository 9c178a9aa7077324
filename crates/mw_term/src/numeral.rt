// Numbers as nodes keep them.
ghost use Rattle.std.specs.Prelude.{◌≡◌};
ghost use Rattle.mw_term.specs.Shapes.{number_of};

/// A number in two words, so that a node is aligned to eight bytes.
#[derive(Clone, Copy, Drop)]
pub(crate) struct Numeral {
    high: u64,
    low: u64,
}

impl Numeral {
    pub(crate) fn of(number: u128) -> Numeral
        ensures { number_of result ≡ number }
    {
        let high = (number / (1 << 64)) as u64;
        let low = (number % (1 << 64)) as u64;
        Numeral { high, low }
    }

    pub(crate) fn get(self) -> u128
        ensures { result ≡ number_of self }
    {
        self.high as u128 * (1 << 64) + self.low as u128
    }
}
