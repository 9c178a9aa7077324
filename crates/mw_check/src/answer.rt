// What comes of an item.
use mw_term::Term;

/// Why a proof text isn't accepted, in the order in which the causes are told.
#[derive(Clone, Copy, PartialEq, Eq, Debug)]
pub enum Cause {
    /// There is no module of the text's name.
    Module,
    /// The text isn't of the form.
    Text,
    /// There is no such executable statement, or no row is met.
    Statement,
    /// A value doesn't have its variable's sort.
    Binding,
    /// The part isn't there, or isn't the left side's instance.
    Part,
    /// Two parts share an argument.
    Overlap,
    /// The condition isn't shown, or the sides of a test aren't normal.
    Condition,
    /// A test of normality stopped.
    Stopped,
    /// The next term would be too deep, or have too large a number.
    Limit,
    /// The last term is another.
    End,
}

/// What comes of an item.
#[derive(Drop)]
pub enum Answer {
    /// It is at fault, for another cause than a stop.
    Refused(Cause),
    /// A test of normality stopped. The next term, where it is admitted.
    Stopped(Option<Term>),
    /// It leads to this admitted term, and counts as so many replacements, up to 2^64 - 1.
    Passed(Term, u64),
}
