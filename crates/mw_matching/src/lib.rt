//! All matches of a pattern modulo the axioms, each once. Definitions and laws over mw_arguments, for patterns whose
//! variables stand by position (mw_position). It has no code, and no crate with code stands on it yet.
//!
//! A match (`IsMatch`, specs/Matches) extends the values that were there; each new value is canonical and one that its
//! position may have, and the canonical instance of the pattern is the term. All is in an accepted signature, for a
//! canonical term and a pattern whose operators have as many arguments as their axioms ask for (`HasArities`) and whose
//! variables are numbered as they are met (`IsNumbered`).
//!
//! - **By splits**: `matches` goes through lists of arguments. Where these are all, each once (`IsTheory`), so are the
//!   matches (`matches_once`).
//! - **Rigid arguments first** (specs/Rigid, Patterns): those that become one element whatever their values are
//!   (`is_rigid`). An argument is one if another operator stays on top of it. Splits that take rigid arguments first
//!   lose no match (`rigid_theory`, `matches_by_splits_once`).
//! - **One argument at a time** (specs/Bagged, AllMatches): under an associative and commutative operator an argument
//!   is matched with its share before the others take theirs. `all_matches` too has all matches, each once
//!   (`all_matches_once`).
//! - **As they are enumerated** (specs/Found, Multisets): a value that is there takes its own elements, a rigid argument
//!   one, the last one all, and a variable that stands several times a part of which there are as many. What fits a
//!   position is told by operators under which it has to be one element (`fits_single`). `found` has all matches, each
//!   once (`found_once`).
//! - The canonical instance is the normal form of the instance by what the values mean (`evaluated_is`).
//!
//! Not here: that matches are solutions (`IsSolution` of mw_logic), and the other way round.
#![tactic(auto)]
