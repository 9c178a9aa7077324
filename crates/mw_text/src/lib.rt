//! Which terms the tokens of a text spell: definitions, which the contracts of the reader and of the program cite;
//! names as pieces and holes; the number that digits write; and names and variables that are met, each once.
//!
//! - **Names** (specs/Names): an operator's spelling as pieces and holes (`items_of`), and a name's prefix spelling as
//!   one token. `first_item` takes the first item off a spelling, without memory: it gives that item and what stands
//!   behind it, and none exactly where there is none. The law `spellings_read`: the prefix spelling of a name reads
//!   back as its items. A name is proper (specs/Proper) where its pieces are tokens, and where it has holes, its
//!   spelling is one too.
//! - **Numerals** (specs/Numerals): `number_in` is the number that a text of decimal digits writes, leading zeros or
//!   not, where it is below 2^128. `number` computes it in one pass, and ends where the bound is passed.
//! - **What is met** (specs/Interned, specs/Mentions): `Names` and `Variables` hold each name or variable once, in
//!   order of first mention, found by hash. A name's number counts from 1.
//! - **Mixfix** (specs/Mixfix) says which terms tokens spell (`Spells`), as a family by cases on the term, with a
//!   precedence: variables, numerals (in a signature with `nat`), quoted identifiers, which are tokens that begin with
//!   an apostrophe and are kept with it (in one with `qid`), texts in parentheses, constants, prefix forms, and mixfix
//!   forms whose holes take precedences by their marks. A token may be several of these. `Reads`: this term is spelled,
//!   and no other one (of a wanted sort's kind, where one is wanted).
//! - **Readings** (specs/Readings) says the same of two texts whose terms have one kind (`ReadsPair`).
//!
//! What is spelled is a raw term of the signature (proofs/RawTerms, also for associative operators), whose quoted
//! identifiers are tokens of the text (proofs/Identifiers). The language is Maude's mixfix syntax (Maude Manual,
//! chapter 3) without its preference among readings.
//!
//! Only tested, by the sources in cases/: that the definition is the language that is meant.
#![tactic(auto)]

mod interned;
mod items;
mod numerals;
mod variables;

pub use interned::Names;
pub use items::{NameItem, first_item, has_hole, holes, spellings_read};
pub use numerals::number;
pub use variables::Variables;
