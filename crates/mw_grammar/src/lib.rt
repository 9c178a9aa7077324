//! The grammar of a signature: each way to write a term of an operator, compiled to a table of states, and the words of
//! tokens.
//!
//! - **Notations** (specs/Notations): an operator has a constant or prefix form for each head (the name as one token,
//!   and its pieces where it has no hole), a mixfix form where the name has as many holes as marks and arguments, and,
//!   where it is associative, prefix forms on more arguments, whose last ones have a kind of their own. A part of a
//!   notation is a token, or a hole for texts of a kind and of a precedence below a number.
//! - **States** (specs/Compiled): a notation's parts are put in from the last to the first, and notations of one kind
//!   and precedence share their last state (for speed: no clause says so). The state of whole texts of a kind at
//!   precedence 0 has the kind's number; texts in parentheses, and tokens that are terms by themselves, come there.
//! - **Names** (specs/Listing): the texts of tokens, the names of declared variables and those of sorts are numbered
//!   together, and by a name's number there are listed the sorts of the variables with this name, and the sorts of it.
//! - **Words** (specs/Worded): a token's number, and a leaf for each term that it is by itself (specs/Leaves): the
//!   numeral, at the kind of the sort Nat, and the quoted identifier, at that of Qid, where the signature has them; the
//!   variables declared with this name, and for each colon those of the name before it and a sort named behind it. Each
//!   term has one place among the leaves (007 and 7 are one numeral).
//! - **Trees as terms** (specs/Meaning): `term_of` is the term of a tree.
//!
//! Proved: `Grammar::of`: the grammar is that of the signature, by the kinds that the order of its sorts gives, in
//! which the variables are declared (`IsGrammarOf`): the table has exactly the signature's notations, each leading to a
//! whole state of its kind and precedence; none is empty, none is a hole alone, and each is found by what comes first
//! in it (`IsReading`). `Grammar::words`: a word for each token, with exactly the terms that it is by itself.
//! `Grammar::sort_named`: a sort of the signature that has the name, or none exactly where none has it. The law
//! `trees_are_terms`: a term is spelled by tokens (`Spells` of mw_text) exactly where a tree that stands for it is
//! spelled by their words, as a text of the term's kind; different trees stand for different terms; what is spelled is
//! a raw term.
//!
//! Conditions: the order is that of the signature's sorts; names have a piece or more than one hole, sorts are
//! declared, precedences are at most 127, associative operators have two arguments of their result's kind, one sort is
//! named Nat where there are numerals, and one Qid where there are quoted identifiers (`IsReadable`); the variables'
//! sorts are declared. Want of memory may come at any call, also above 2^31 - 1 sorts or operators, 2^32 - 1 names, or
//! 2^32 terms that tokens are.
//!
//! How it is proved: what tokens spell is the least relation between kinds, precedences, terms and texts that tokens by
//! themselves, parentheses and notations keep (`IsClosed`), and so is what the states spell. Cost: the notations'
//! parts; for each token one pass over it, a look-up, one more for each colon in it, and one for each term that it is
//! by itself, all by hash.
#![tactic(auto)]

mod alone;
mod compile;
mod grammar;
mod kinds;
mod leaves;
mod listing;
mod notations;
mod parts;

pub use alone::{Alone, Leaves};
pub use grammar::{Grammar, Words, trees_are_terms};
