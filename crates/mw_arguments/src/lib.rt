//! On which lists of canonical arguments an operator gives a term, by its axioms: all of them, each once. Definitions
//! and laws over mw_logic and mw_split. It has no code, and no crate with code stands on it yet.
//!
//! - **All arguments** (specs/Splits): `splits_of` lists them. `exact` says that this list has all (`Gives`), each
//!   once: in an accepted signature, for a canonical term and as many arguments as the axioms ask for (`HasArity`).
//! - **Pieces** (specs/Pieces, Bags): what an associative operator's arguments have of the term's elements. The cuts of
//!   mw_split stand for the pieces one for one (`list_cutting`, `bag_cutting`), and so do these for the arguments
//!   (`spellings`), but for those with an empty piece and no identity that it could stand for.
//! - **Lists of all, each once** (proofs/Once) stay so when they are mapped one to one, filtered, and joined where
//!   nothing comes from two of them (`once_mapped`, `once_filtered`, `once_flat_mapped`).
//! - **Numbers of arguments** (specs/Places): what rising numbers choose of a list in order, with what they leave, is
//!   the list in order, and each part of it is chosen by some (`chosen_whole`, `numbers_choose`).
#![tactic(auto)]
