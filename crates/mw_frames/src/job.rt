// What waits in frames.
use mw_pattern::Pattern;
use mw_term::{OpId, Term};

/// A term to be reduced, with what is known of it. Parts of a right side are patterns, whose values stand in the kept
/// proof from a place on; `0` in the last field says that each of the values is normal, else the operator on top of
/// the term that the right side came for.
#[derive(Drop)]
pub enum Job<'m> {
    /// Nothing is known: its arguments are reduced first.
    Walk(Term),
    /// Its arguments are normal: only its top is tried.
    Try(Term),
    /// It is normal.
    Normal(Term),
    /// An instance of a pattern with an operator on top, which isn't built.
    Made(&'m Pattern, usize, OpId),
    /// The same, and the instance.
    Built(Term, &'m Pattern, usize, OpId),
}

/// An operator whose arguments are being reduced. Those that are done stand in the machine's list of terms from `from`
/// on, those that wait in its list of jobs from `waits` on, the next one last. `level` says how many levels stand above
/// a term with this operator on top.
#[derive(Clone, Copy)]
pub struct Frame {
    pub op: OpId,
    pub level: usize,
    pub from: usize,
    pub waits: usize,
}

/// What is in hand: a term, or a frame none of whose arguments is.
#[derive(Drop)]
pub enum Hand<'m> {
    One(Job<'m>),
    Over(Frame),
}
