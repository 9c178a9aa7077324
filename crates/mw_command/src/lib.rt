//! Reads the commands of a source: `reduce`, also written `red`, `rewrite`, also written `rew`, `parse`, `match` and
//! `xmatch`.
//!
//! - A unit with any other first word, a module too, isn't in the profile.
//! - Directly behind the word `rewrite` may stand a bound: `[`, a number from 1 to 2^64 - 1 in digits, the first of
//!   which isn't 0, and `]`. Any other bracket there, and each directly behind another word, is a bad bound.
//! - Behind the word and the bound exactly `in`, one token and `:` name a module, and what follows is the term, which
//!   may be empty. Else all that stands behind the word is the term, `in` too.
//! - What `match` and `xmatch` are for is divided at the first `<=?` outside of `( ) [ ] { }` and of `if` and `fi`,
//!   taken as brackets: the pattern stands before it, and the term that it is matched against behind it. Without one
//!   there is no subject, which is told later, as a text that isn't read.
//! - `in`, a name and a group in braces (only braces counted) with a colon directly behind would name an instance of a
//!   parameterised module, which isn't in the profile; nor is `in { :`.
//! - The module's name is looked at before a bound, behind the first `]`.
//!
//! Proved of `read`, over `command_of` of specs/Commands: the answer is exactly the unit's command, with its word, its
//! bound (specs/Bounds), module, term and subject; a fault is answered exactly where the unit has one, with the unit's
//! line: the word first, then a name with braces, then the bound. No memory is asked for: a command's parts are tokens
//! of its source. Only tested, by the sources in cases/: that the definition is the language that is meant.
#![tactic(auto)]

mod commands;
mod dividing;
mod naming;

pub use commands::{Command, Word, read};
