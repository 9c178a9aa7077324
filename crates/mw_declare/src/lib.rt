//! What the statements of a flattened module declare, and what is wrong with its declarations.
//!
//! A module's statements are those of the modules that it imports, one module after the other, and then its own.
//! `declare` takes all of them (`Stated` of mw_module), and answers the module's signature, the order of its sorts,
//! and its variables; or the first fault. The variables are those of the module's own statements alone, which
//! `all_typed` answers before, from these, or their fault. An import statement declares nothing, and mentions
//! nothing; nor does a class, whose forms stand before it (mw_omod).
//! `Reached` says which modules of the prelude are among those whose statements these are.
//!
//! - Sorts and operators are numbered, and variables stand, in the order of their first declaration, which may come
//!   behind a use. What several modules declare is one, as what one module declares again. The pairs of a signature
//!   are those of all `subsort` statements, in the order of the text: for two groups side by side each sort of the
//!   first below each of the second.
//! - An operator is a name with the kinds of its arguments and of its value, a kind being named by its least sort. Its
//!   declarations are all those of that name and those kinds, each with its sorts; `[S]`, and each sort of a
//!   declaration with `~>`, is the kind of S. A name is known by its prefix spelling, so `a b` and `` a`b `` are one.
//! - The attributes of an operator are those of all its declarations together, axioms too, or the defaults of
//!   docs/LANGUAGE.md. An identity is the constant of that name in the kind of the operator's value, wherever that is
//!   declared; where there is none, it is the numeral that the name is, in a module with numbers. Frozen
//!   arguments are those that any declaration says.
//! - Where statements declare `true` and `false` of the sort Bool, each kind has three operators more: a choice by a
//!   truth value and two tests of equality. They come behind all others, kind by kind in the order of their least
//!   sorts. One that statements declare too is that operator, whose last declaration is this one. They alone are marked
//!   as built in.
//! - A module has numbers where it reaches NAT, and a statement declares `s_` from Nat to NzNat, and others Zero and
//!   NzNat directly below Nat; it has quoted identifiers where it reaches QID, and the sort Qid is declared. The texts
//!   of NAT and QID (mw_prelude) declare these.
//! - `all_typed` has one fault, that of the first variable that is declared again with another sort, with the line of
//!   the statement. Those of `declare`, of which each kind's first in the text decides: a sort that isn't declared, of
//!   a `subsort` statement, an operator or a variable, also of one that is imported, with the line of the statement;
//!   then the least sort that is below itself; then the operator of least number with axioms that aren't kept, or
//!   don't fit its kinds, or with an identity that isn't there (`is_accepted_operator` of mw_logic), or with a number of
//!   a frozen argument that it hasn't; or else with two different identities, precedences or gathers; both with the line
//!   that `declare` is given, of the unit's first token.
//!
//! Proved: the answer is exactly what the statements declare together with the variables, with the order of its sorts
//! and pairs (`Declares`, specs/Declarations), and a fault is answered exactly where there is one, and is the first
//! (`DeclarationFault`; of variables `typing_of`, specs/Faults). With the same variables, statements declare one thing
//! at most; they have one first fault at most, and not both (proofs/OneDeclaration). The signature is an accepted one:
//! its axioms are kept ones that fit, and no two sorts have one name; its sorts are there, and those of declarations
//! lie in their operators' kinds; no two operators have one name and kinds that are connected. Where there are numbers,
//! their sorts and the one successor are there (`HasNaturals` of mw_sorting), where there are quoted identifiers the
//! sort Qid is, and what is marked as built in is one of the three operators of some kind, beside `true` and `false`
//! (`HasBuiltIns` of mw_logic). All this stands at `declare`, and as lemmas in proofs/Accepting. `Memory` may come at
//! any call. What the crates above know of the operators stands in proofs/Known, and of names as tokens in
//! specs/Proper.
//!
//! Two laws of signatures (specs/Laws), each the contract of a function that does nothing: where the forms of some
//! statements are among those of others, the signature of the first is part of that of the others, by the names of its
//! sorts and the names and kinds of its operators, and with its numbers and quoted identifiers, where the second
//! reaches what the first does (`parts_are_there`); so a module's terms can be carried to each module that imports it.
//! And no two operators of a signature can be taken for one another (`declared_apart`).
//!
//! How it works: each question is one loop over the statements. Tables of names, variables and operators keep the
//! order of insertion, so a name is looked up once or twice for each mention, by its hash, and a sort's kind once
//! more; an identity once, when all operators are known. The operators that each kind has cost one pass over the
//! sorts. Only tested, by the sources in cases/: that the definitions are the declarations that are meant.
#![tactic(auto)]

mod built;
mod declarations;
mod each_kind;
mod freezing;
mod grouping;
mod hierarchy;
mod judging;
mod laws;
mod operators;
mod sorts;
mod spelling;
mod variables;

pub use built::Reached;
pub use declarations::{Declarations, declare};
pub use laws::{declared_apart, parts_are_there};
pub use spelling::spelling_of;
pub use variables::{Typing, all_typed};
