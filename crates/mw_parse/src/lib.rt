//! Reads terms: the one term that a text spells, and the one pair of terms of one kind that two texts spell.
//!
//! `parse` and `parse_pair` turn tokens into words by a grammar (mw_grammar), let the chart (mw_chart) read them, and
//! turn its trees into terms, down their left spines; of two readings both become terms.
//!
//! Proved, over `Reads` and `ReadsPair` of mw_text: the answer is the one term (of a wanted sort's kind, where one is
//! wanted), or the one pair of one kind; `TooLong` comes only above 1,024 tokens, `NoParse` only where nothing is
//! spelled, `Ambiguous` only with two different terms or pairs that are spelled. So each comes exactly there, but for
//! want of memory. A wanted number that is no sort's is a kind by itself.
//!
//! Condition: the grammar's table is one that the chart reads by (`IsReading`), as `Grammar::of` makes it. That the
//! chart's answers are the definitions' goes by `trees_are_terms` (proofs/Exactness). Only tested, by the sources in
//! cases/: that calls answer with memory at hand.
#![tactic(auto)]

mod pair;
mod single;
mod terms;

pub use mw_chart::Unread;
pub use pair::parse_pair;
pub use single::parse;
