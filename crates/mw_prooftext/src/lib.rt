//! Proof texts.
//!
//! A proof text says of each replacement of a kept proof where in the whole canonical term it stands, by which
//! statement or row, with which values, and with which evidence for its condition; docs/FORMATS.md has the format.
//! specs/Texts gives a text's bytes by its items, specs/Tells what items mean: the run that they tell from a canonical
//! term on, each at its place in the term that the one before it left (`ReplacesAt` of mw_redex).
//!
//! Proved: `write` answers a text that tells the run of the proof, from its first term to its last one, and the proof
//! carries that run out, modulo the axioms (`Denotes` of mw_deduction). So the text denotes the proof. Its items pass
//! all tests but those of conditions (`Passes`, specs/Passing), those in groups in the rank below, and their numbers are
//! of 32 bits (specs/Narrow). That is `IsTextOf` of specs/Denoting. Not said: that a group ends in a normal term, and that
//! these ends meet the condition.
//!
//! Conditions: none; a [`mw_proof::Proved`] keeps what is needed. Want of memory is the only error.
//!
//! Cost: the text is written in one pass over the trail, with the term that each proof under way has, opened where its
//! moves are (mw_spot). A line costs its own length, which is mostly that of the values that it spells out, and for
//! each argument that its place names one look into each level above it. A side's items are written apart and moved
//! behind its statement, once for each condition that it stands in, of which there are 63 at most. Neither proved nor
//! tested here: time, and that calls answer with memory at hand.
#![tactic(auto)]

mod chains;
mod lines;
mod values;
mod writing;

pub use writing::write;
