// Arithmetic on numbers below 2^128.
ghost use Rattle.std.specs.Prelude.{◌≡◌, ◌+◌, ◌*◌};
ghost use Rattle.mw_logic.specs.Module.{bounded as bounded_of, result_of};
ghost use Rattle.mw_builtin.specs.Schemata.{on_numbers};
ghost use Rattle.mw_builtin.specs.Results.{result_for};

use crate::schema::BuiltIn;

/// What an operator gives of two numbers.
#[derive(Clone, Copy)]
pub(crate) enum Outcome {
    /// Nothing: nothing is divided by 0.
    Nothing,
    Number(u128),
    Truth(bool),
    /// A number of 2^128 or more.
    TooBig,
}

fn added(m: u128, n: u128) -> Outcome
    ensures { result_for result ≡ bounded_of (m + n) }
{
    match m.checked_add(n) {
        Some(sum) => Outcome::Number(sum),
        None => Outcome::TooBig,
    }
}

fn multiplied(m: u128, n: u128) -> Outcome
    ensures { result_for result ≡ bounded_of (m * n) }
{
    match m.checked_mul(n) {
        Some(product) => Outcome::Number(product),
        None => Outcome::TooBig,
    }
}

/// What an operator gives of two numbers, the first on its left.
pub(crate) fn compute(operator: BuiltIn, m: u128, n: u128) -> Outcome
    ensures { result_for result ≡ result_of (on_numbers operator) m n }
{
    match operator {
        BuiltIn::Plus => added(m, n),
        BuiltIn::Times => multiplied(m, n),
        BuiltIn::Difference => Outcome::Number(m.max(n) - m.min(n)),
        BuiltIn::Quotient if n == 0 => Outcome::Nothing,
        BuiltIn::Quotient => Outcome::Number(m / n),
        BuiltIn::Remainder if n == 0 => Outcome::Nothing,
        BuiltIn::Remainder => Outcome::Number(m % n),
        BuiltIn::Least => Outcome::Number(m.min(n)),
        BuiltIn::Greatest => Outcome::Number(m.max(n)),
        BuiltIn::LessThan => Outcome::Truth(m < n),
        BuiltIn::AtMost => Outcome::Truth(m <= n),
        BuiltIn::MoreThan => Outcome::Truth(m > n),
        BuiltIn::AtLeast => Outcome::Truth(m >= n),
    }
}
