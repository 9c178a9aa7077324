//! Reads proof texts from tokens. docs/FORMATS.md, "Proof texts", has the format in words.
//!
//! A text is a head, items and an end (specs/TokenTexts). `read` gives its two terms and its items as a flat list of
//! entries (mw_items). One loop goes over the tokens: an item's line is read from left to right, by the word or number
//! that comes next; behind `where {` a frame is pushed, which keeps how many groups the item still wants, and `}` pops
//! it or goes on to the next group. So nothing is called by itself but the walk down a term that is compared, and a
//! text of many open groups is refused at the 64th.
//!
//! A term goes as far as tokens do that may stand in a form: those of forms and numbers begin with a digit or one of
//! `' ( ) ,`, whose bytes are below those of all words. It is read by its numbered prefix form (mw_prefix), put in
//! canonical form, and compared with this one: the tokens are the form of a canonical term alone.
//!
//! Numbers may have any number of digits, without leading zeros (`number_text` of specs/Numbers). Those of a `take` are
//! compared by their digits. In an entry a number of 2^32 or more is 0, which no statement and no argument has
//! (`entry_items`).
//!
//! Proved, over any module that a context shows:
//!
//! - `read`: what is read is a text of the form (`IsText` of specs/Reading): its tokens are those of its items, of
//!   version 1; each term is canonical and admitted; a `take` rises and takes two arguments or more; a statement that
//!   is there, executable or not, has as many values as variables and as many groups as its fragments have sides; at
//!   most 63 `where` stand inside one another. The entries are those of the items, with numbers as entries have them.
//! - `ReadError::Outside` comes only where the tokens leave the form (`IsOutside` of specs/Outside), and tells the
//!   part in which they do: 0 is the head, then come the items, and the end is one more than the last of them. Tokens
//!   that end where an item or the end is due leave the form in that part.
//! - The law `outside_is_no_text`: such tokens are no text. The law `outside_is_one`: they leave the form in one part
//!   alone. The law `texts_tell`: tokens are the text of one list of items alone, from one term to one other. The law
//!   `numbers_are_decimal`: numbers stand in a text as they are printed. The law `text_lexes`: what mw_prooftext writes
//!   of items is cut into their tokens, where numbers are below 2^128 and terms have forms that tell them.
//! - The law `written_are_texts`: what mw_prooftext writes of a kept deduction is cut into the tokens of a proof text of
//!   its items. The module's terms can be written (`IsWritable` of specs/Kept), its name is one token, and so are the
//!   quoted identifiers of the first term. That evidence stands at most 63 deep is the deduction's rank (proofs/Known).
//!
//! Errors: `Memory` may come at any call; a term of more than 8,388,608 tokens counts as want of memory.
//!
//! Cost: the sorts are looked through once, for `Nat` and `Qid`. Each token is looked at a fixed number of times, the
//! numbers of a `take` twice, those of a term by mw_prefix, mw_canon and one comparison. Entries and values are pushed
//! once. Neither proved nor tested here: time.
#![tactic(auto)]

mod counts;
mod fault;
mod forms;
mod frame;
mod items;
mod laws;
mod lines;
mod numbers;
mod reader;
mod reading;
mod values;
mod words;

pub use fault::ReadError;
pub use laws::{
    numbers_are_decimal, outside_is_no_text, outside_is_one, text_lexes, texts_tell,
    written_are_texts,
};
pub use reading::read;
