//! Modules that were accepted: what their units declare, with their equations and rules read, and those of the modules
//! that they import, held for reduction.
//!
//! `build` makes a [`Module`] of a unit, where others were accepted before: the units that its imports reach
//! (mw_import), NAT and QID among them (`reached_of`), the declarations of all their statements and its own
//! (mw_declare), the operators' tables (mw_sorts) and axioms (mw_canon), its grammar (mw_grammar), the equations and
//! rules as statements, and all this as a context (mw_least); an index of them (mw_index) is made when it is first
//! wanted (`Module::prepare`). A module keeps the statements that stand in it itself as they were read in its own
//! signature (`Module::own`): a module that imports it has them carried to its own signature (mw_carry), so no text is
//! read twice. `Module::term` reads a term in which the module's own variables may stand, `Module::pair` two of one
//! kind, `canonical` makes such a term canonical.
//!
//! Faults come in this order, and the first one decides: a variable of its own that is declared again with another
//! sort; the first import at fault; those of the declarations of the flattened module; an operator without a least
//! result on some sorts, one whose groupings of three sorts differ, or one whose identity, left out, raises a sort, at
//! the line of the unit's first token; then statement after statement: imported ones, told at the line of the unit's
//! first token, and then its own ones, each with its line. Of one statement: its texts, first those of its sides,
//! then those of the fragments of its condition in turn (one of more than 1,024 tokens; else none that is spelled, or
//! two); then its terms in the same order, each for more than 1,000 levels in its canonical form, or for too large a
//! number in it; and where it is executable, a left side that is a variable modulo the axioms, or the first variable
//! that isn't bound, in order of mention: of the right side one that neither the left side nor the pattern of a match
//! has, and then of what is evaluated in a fragment one that neither the left side nor the pattern of a match before it
//! has.
//!
//! A module's own rules are completed where it is an object module (mw_omod), by the classes that the flattened module
//! declares (specs/Classes): what is said of terms is said of those of the completed rule. Where a bad object stands in
//! a rule, its own terms are looked at, and that is told last. Imported rules were completed in their own module.
//!
//! A fragment is a match or an equation as mw_module divides it, and its two texts are read as terms of one kind. Any
//! other text is a sort test where it ends in a colon and a sort that is there, or such a sort in brackets; what stands
//! before the colon is read as a term of the sort's kind. Else all of it is read as a term of the kind of Bool
//! (specs/Fragments).
//!
//! The text of an imported one isn't looked at again. As axioms that an importer adds make terms no deeper, and
//! variables stay apart, only a left side that has become a variable and a number that has become too large, where an
//! identity is left out under a successor, are new with it; that the others can't come isn't proved, and they are
//! tested too.
//!
//! Proved:
//!
//! - `accepted`: the module has the signature that the flattened module declares, the variables of its own statements,
//!   and for its statements, in flattened order, those that stand for the own statements of the modules that it reaches
//!   (`IsImported`, specs/Imported), and then for each of its equations and rules the statement whose sides and
//!   fragments its texts spell in its own signature, and no others, a rule of an object module completed (`IsReadAs`,
//!   specs/Statements; `IsAccepted`, specs/Modules).
//! - `fault`: a fault is answered only where the unit has it, and it is the first (`IsRefused`; `IsFirstWrong` of
//!   specs/Pairwise). A unit is one module at most, and none where it is refused (proofs/OneModule).
//! - `build` wants that the units before were accepted as the modules before (`AreLoaded`); with one more it is so
//!   again (proofs/Loading).
//! - The module is workable, as mw_least asks, its signature has a grammar, as mw_parse asks (their `requires`), and
//!   `Module::index` is an index of its statements where there is one (`IsIndexOf` of mw_index); `prepare` changes
//!   nothing else.
//! - The law `texts_read_back`: the text of each raw term of a module that a source's unit is, cut into tokens, spells
//!   this term in the module, where the term's variables can be printed and its quoted identifiers are tokens
//!   (specs/Printing). By `statements_are_printable` so it is for the sides and the fragments' terms of the
//!   module's statements, where no rule was completed: the variables that completion adds can't be printed. By
//!   `spellings_are_whole` each operator is spelled as one token. By `accepted_are_workable` what a unit is accepted as is
//!   workable, by the definitions alone.
//! - `Module::term`: the one term that the tokens spell, a term of the signature; no term only above 1,024 tokens,
//!   where they spell none, or two. `Module::pair`: the one pair of terms of one kind, likewise.
//! - `canonical`: the canonical form of a term that was read, or what keeps the term out.
//!
//! The definitions speak of levels and of a lone variable modulo the axioms; the tests ask the canonical forms
//! (proofs/Sides). `Memory` may come at any call. Only tested, by the sources in cases/: that the definitions are what
//! is meant. Neither: time. A module costs what its flattened statements cost: each is declared anew, and each imported
//! statement is carried and made canonical once.
#![tactic(auto)]

mod carrying;
mod classes;
mod fragments;
mod laws;
mod modules;
mod signature;
mod sizes;
mod statements;
mod variables;

pub use laws::{
    accepted_are_workable, spellings_are_whole, statements_are_printable, texts_read_back,
};
pub use modules::{Built, Module, build};
pub use sizes::canonical;
