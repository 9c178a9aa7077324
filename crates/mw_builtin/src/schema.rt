// What operators compute.

/// An operator on two numbers.
#[derive(Clone, Copy)]
pub(crate) enum BuiltIn {
    Plus,
    Times,
    /// `sd`, the difference of the greater and the less.
    Difference,
    Quotient,
    Remainder,
    Least,
    Greatest,
    LessThan,
    AtMost,
    MoreThan,
    AtLeast,
}

/// What an operator computes.
#[derive(Clone, Copy)]
pub(crate) enum Schema {
    /// Nothing.
    Nothing,
    /// A number, or a truth value, of two numbers.
    Number(BuiltIn),
    /// `_==_`: whether two terms are equal.
    Equality,
    /// `_=/=_`: whether they aren't.
    Inequality,
    /// `if_then_else_fi`: one of two terms, by a truth value.
    Choice,
    /// It is `true` or `false`.
    Truth(bool),
}
