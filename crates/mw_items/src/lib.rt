//! What a proof text says, as it is read and checked: a flat list, so that a text of a million lines is dropped by a
//! loop.
//!
//! The items of a text (specs/Items) stand one entry after another (`entries_of`, specs/Entries). The
//! groups of a step's condition follow it, each between an entry that opens it and one that closes it. It has no code.
#![tactic(auto)]

use mw_redex::Place;
use mw_term::{Seq, Term};

/// A replacement by a statement.
#[derive(Drop)]
pub struct Step {
    /// Whether the statement is told to be an `owise` equation.
    pub owise: bool,
    /// The statement's number, from 1.
    pub statement: u32,
    /// Where it replaces, in the canonical term at that moment.
    pub place: Place,
    /// The values of its variables, in their order.
    pub values: Seq<Term>,
}

/// An entry of a proof text.
#[derive(Drop)]
pub enum Entry {
    /// A replacement by a statement. The groups of its condition stand behind it.
    Step(Step),
    /// A replacement by a row of the built-in schemata.
    Built(Place),
    /// A group begins.
    Open,
    /// A group ends.
    Close,
}

/// A proof text that was read: where it begins, its entries, and where it ends.
#[derive(Drop)]
pub struct ProofText {
    /// The version of the format that it names.
    pub version: u32,
    /// The canonical term from which it leads.
    pub from: Term,
    pub entries: Seq<Entry>,
    /// The canonical term to which it leads.
    pub to: Term,
}
