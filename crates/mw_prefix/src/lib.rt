//! Reads numbered prefix forms of ground terms.
//!
//! Proof texts have ground terms in this form (docs/FORMATS.md, "Proof texts"), and mw_print writes it: a numeral in
//! plain decimal, a quoted identifier, or an operator as one token, which is its number, `@` and its prefix spelling,
//! with its arguments behind it in parentheses, where it has any. `read_prefix` reads the term back, flattened as it
//! stands there.
//!
//! It is one loop over the tokens, with a stack of its own: a level for each operator whose arguments are being read,
//! with those that are read, and beside the levels what was read last. A token is looked at once: an operator is found
//! by its number, and its spelling is compared with what stands behind the first `@`. Where the arguments of an
//! operator end, they are counted, and the kind of each is compared, which is that of what stands on top of it. So only
//! the drop of a term is a recursion, which goes as deep as parentheses were open.
//!
//! Proved (specs/Forms), for every accepted signature and for any tokens:
//!
//! - `read_prefix` answers the term whose form the tokens are (`IsPrefixForm`): they are the tokens of the form; the
//!   term is ground, its numerals are below 2^128 and its quoted identifiers are tokens; what it means is a raw term of
//!   the signature, as `canon` of mw_canon wants it; each associative operator stands on two or more arguments; and at
//!   most 999 parentheses are open at once. `NoParse` comes only where the tokens are the form of no term, and
//!   `TooLong` exactly where there are more than 8,388,608 of them. So each answer comes exactly there, but for want of
//!   memory.
//! - `LeafKinds::of` finds the kinds of numerals and of quoted identifiers, and `read_prefix_with` is `read_prefix`
//!   with these at hand.
//! - The law `forms_tell`: tokens are the form of one term alone. The law `canonical_has_form`: what mw_print writes of
//!   a canonical ground term, whose quoted identifiers are tokens and which is no deeper than terms may be, is its
//!   form. So what is written of such a term is read as that term.
//!
//! How it is proved: specs/Words and specs/Reading say the same by computing, a token and a step at a time; the code
//! does these steps, what is a form is read by them (proofs/FormsRead), and what is read is one (proofs/ReadIsForm).
//!
//! Conditions: the order is that of the signature's sorts, and the sorts and kinds that it names are there.
//!
//! Errors: beside `NoParse` and `TooLong` want of memory, as which the number of an operator beyond 32 bits counts,
//! too.
//!
//! Cost: time goes with the bytes of the tokens, and memory with the term. Besides, `LeafKinds::of`, and so
//! `read_prefix`, goes over the sorts until `Nat` and `Qid` are found; who reads many forms takes `read_prefix_with`.
//! Measured on one processor: 45 to 80 ns a token, the drop of the term included. Neither proved nor tested here: time,
//! and that calls answer with memory at hand.
#![tactic(auto)]

mod fault;
mod forms;
mod laws;
mod leaves;
mod reading;
mod taking;
mod words;

pub use fault::PrefixError;
pub use forms::{read_prefix, read_prefix_with};
pub use laws::{canonical_has_form, forms_tell};
pub use leaves::LeafKinds;
