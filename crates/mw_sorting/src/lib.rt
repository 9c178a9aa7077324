//! The sort of a canonical term, by computing, and that it is the term's least sort: definitions and laws over
//! mw_logic, for all axioms, identities and numerals. It has no code.
//!
//! - **Computed sorts** (specs/ComputedSorts): an operator without `assoc` has its least result on its arguments'
//!   computed sorts, or its kind where no declaration takes them; one with `assoc` is taken over its arguments from the
//!   last one back; 0 has Zero, and each other numeral what `s_` gives on the one before it.
//! - **The signatures** (specs/PreregularModulo) are accepted ones that are preregular modulo their axioms: on all
//!   sorts and kinds, operators have results, the groupings under an associative operator agree up to the order, and
//!   leaving an identity out raises no sort. With numbers they have Zero and NzNat below Nat, and one `s_`.
//! - **Numerals by a table** (specs/NumberTable): the sorts that `s_` leads to, up to the first that comes again.
//!
//! Proved of such a signature:
//!
//! - The computed sort of a canonical term that means a raw term is its least sort, or its kind (`computed-least`).
//! - It is the declared sort of an equal term (`has_form`), of the term's kind (`sort_kind`), and one up to the order
//!   (`computed-agree`). The normal form of a raw term with a declared sort has one at or below that (`lowest`).
//! - The entry of a numeral in such a table is its computed sort (`number_sorts`), in any signature.
//!
//! Worked rows (proofs/RowsOfLists) are a signature that is preregular modulo its axioms, and one that isn't. mw_sorts
//! tells which are, and makes such a table. Source: Goguen and Meseguer, "Order-sorted algebra I" (1992), on
//! preregularity and least sorts.
#![tactic(auto)]
