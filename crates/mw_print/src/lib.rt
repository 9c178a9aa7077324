//! Terms as texts, in mixfix form and in numbered prefix form; and sorts and kinds. docs/LANGUAGE.md, "Printing", has
//! the mixfix form in words.
//!
//! A canonical term, whose associative operators stand on two or more arguments, is read as nested to the right
//! (`nested`, mw_logic). Its text is a definition in two steps: specs/Printing gives a raw term's tokens with its
//! precedence, by a recursion down the term; specs/Tokens writes tokens as a text, where what stands between two of
//! them is a function of these two alone. The code makes no list of tokens and no nested term: a `Writer` has the text
//! and how it ends, and each function says which tokens it wrote. A name is read item by item. Of a list that a mixfix
//! operator joins, what stands before each element is written first, and behind the last two what ends all forms that
//! are open (specs/Chains), without recursion.
//!
//! The numbered prefix form, in which proof texts have ground terms, is a definition by recursion on the canonical
//! term, flattened as it is (specs/Prefix): a numeral in decimal, a quoted identifier, or an operator's number, `@` and
//! its prefix spelling as one token, with the arguments behind it in parentheses, where there are any. Its tokens are
//! written as those of mixfix forms are, so a space stands behind one that ends in a backquote. `prefix` writes it
//! behind a text, so that many forms make one text.
//!
//! Proved:
//!
//! - `mixfix`: the text of a term, nested, is the definition's, byte for byte. `print_sort`: so is the name of a sort.
//!   `print_sorted`: so is a sort or a kind: its maximal sorts in order of number, with commas between, in brackets.
//!   Conditions: the order is that of the signature's sorts, and a kind is named by the number of a sort.
//!   Where memory is wanting these two leave the text as it was.
//! - `prefix`: the text is what it was, and behind it the form of the term, which is ground. Where memory is wanting it
//!   is empty.
//! - The law `printed_reads_back`: the text of a raw term, cut into tokens, spells the term, whatever variables are
//!   declared; where operators' names are proper tokens, associative operators have two arguments, each variable of the
//!   term has a name and a sort's name that make one token, and each quoted identifier, which is printed as it is, is
//!   one token that begins with an apostrophe (`HasIdentifiers` of mw_text). So the text of a canonical term spells the
//!   term nested. mw_build shows the premises of the modules that it accepts. It has three parts (specs/Laws): the
//!   printed tokens spell the term, at the precedence at which it was printed (`PrintedSpells`); they are proper
//!   (`PrintedProper`); and the text of proper tokens is cut into these (`PrintedLexes`).
//! - Laws of numbered prefix forms (specs/PrefixLaws), of terms that are ground, whose quoted identifiers are tokens
//!   and whose numbers are below 2^128 (`IsTold`). `prefix_lexes`: the text is cut into the form's tokens, also before
//!   other bytes, where operators' spellings are runs that are read to their ends. `prefix_tells`: two terms with the
//!   same tokens, or with the same text, are one term. `prefix_is_shallow`: one parenthesis fewer is open at once than
//!   the term is deep, so 999 at most where the depth is at most 1,000. Two laws are for the premises.
//!   `canonical_is_told`: canonical terms are such terms, where quoted identifiers are tokens. `names_are_whole`: names
//!   that are given by tokens have such spellings, where their pieces are proper.
//!
//! - `push_decimal`: the digits of the number, behind the text.
//!
//! `Memory` may come at any call. Only tested, by the sources in cases/: that the definition is the mixfix form that is
//! meant. Neither: time, and that a text in mixfix form has no second reading (two terms may be printed alike). Cost:
//! the length of the text and of the operators' names; the recursion is as deep as the flattened term. `prefix` takes
//! time by the bytes that it writes, whatever stands before them, finds a name by its number, and takes no memory but
//! the text's.
#![tactic(auto)]

mod laws;
mod numbered;
mod printing;
mod sorts;
mod writer;

pub use laws::{
    canonical_is_told, names_are_whole, prefix_is_shallow, prefix_lexes, prefix_tells,
    printed_reads_back,
};
pub use numbered::prefix;
pub use printing::mixfix;
pub use sorts::{print_sort, print_sorted};
pub use writer::push_decimal;
