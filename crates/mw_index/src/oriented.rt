// Statements as they are indexed.
use crate::conditions::Condition;
use mw_compile::Compiled;
use mw_pattern::{Pattern, Patterns};
use mw_term::{Seq, SortId};

/// A left side as a search takes it.
#[derive(Drop)]
pub struct Searched {
    pub compiled: Compiled,
    /// Of each variable of the left side, in their order, the position that it has in the compiled pattern.
    pub order: Seq<usize>,
}

/// The left side of a statement.
#[derive(Drop)]
pub enum Left {
    /// The arguments of the operator on top, where no operator has an axiom but the successor of numbers, which isn't on
    /// top: they are compared one by one.
    Plain(Patterns),
    /// Any other left side is searched for modulo the axioms.
    Searched(Box<Searched>),
}

/// An executable equation or rule as it is applied, from left to right, with positions for the variables of its
/// canonical right side.
#[derive(Drop)]
pub struct Oriented {
    /// The statement's number, from 1.
    pub number: usize,
    /// Whether it is a rule.
    pub rule: bool,
    pub left: Left,
    /// Whether the left side is plain and has no successor either.
    pub sure: bool,
    pub right: Pattern,
    /// Whether no operator of the right side has an axiom.
    pub free: bool,
    /// How many levels the right side has with its variables in place, or 65,535 where it has more.
    pub levels: u16,
    /// The sorts of the left side's variables, in their order.
    pub sorts: Seq<SortId>,
    pub condition: Condition,
}
