//! Matches by position (mw_matching) are the solutions of a pattern, modulo the axioms of any accepted signature.
//! Definitions and laws; it has no code.
//!
//! A pattern is compiled: its flattened form, with some arguments in another order, and positions for variables, the
//! given ones first and then those of the pattern as they are met. What is matched and what variables get are canonical
//! terms that mean ground raw terms (`IsValue`, specs/Values). `placed` of mw_position puts positions for variables,
//! `meant` of mw_canon says what a substitution of flattened terms means.
//!
//! - **Values** of a match are raw and ground (`match_values`, proofs/Solving): whatever sorts they have, so that a
//!   test of sorts may be asked of them. They have their variables' kinds where the term has the pattern's
//!   (`match_kinds`), and are admitted where the term is (`match_admitted`, proofs/Admitted).
//! - **A match whose values have their variables' sorts is a solution** (`match_solves`).
//! - **Each solution is a match**, of the canonical forms of its values, which make the same solution
//!   (`solution_matches`, `solved_same`, proofs/Solved). So what a position may have must be no less than what its sort
//!   has (`MayStand`); lists of operators under which a position has one element are so where they are sure (`AreSure`,
//!   `sure_fits`).
//! - **Two matches that make the same solution are one** (`same_values`, proofs/Positions), since canonical terms that
//!   are equal modulo the axioms are one.
//! - **Reordered arguments** of associative and commutative operators (specs/Reordered) leave the pattern equal modulo
//!   the axioms, with the same canonical instances (`nested_reordered`, `evaluated_reordered`, proofs/Reordering).
//! - So a list of all matches, each once, has candidates (`AreCandidates`, specs/Candidates): an entry is a solution
//!   where its new values have their variables' sorts, and only there (`candidates`, proofs/Candidates); and the same of
//!   each pattern that is equal modulo the axioms (`candidates_kept`), as the one whose normal form was compiled is
//!   (`compiled_equal`, `compiled_raw`, proofs/Compiled). `found` of mw_matching is such a list (`found_candidates`).
//! - **Proper parts** of a term are several arguments of an associative operator on top, and not all of them:
//!   neighbours, or the ones with the least numbers among equal ones where the operator is commutative too
//!   (`IsProperPart`, specs/Inside). A proper part of a value is a value (`proper_value`, proofs/ProperParts).
//! - Their matches are found with one more position behind the pattern's elements (`with_rest`). A match of that
//!   pattern with the arguments from a number on is one of the pattern itself with the others, and a value for the
//!   elements that are left behind (`rest_of`, `of_rest`, proofs/Rest; `lefts_once`, proofs/Lefts). The numbers of
//!   these arguments are known by what is left, since numbers that are least or follow one another are known by what
//!   they choose (`least_numbers`, `numbers_least`, `from_follow`, proofs/Numbers). Where nothing is left behind, all
//!   arguments from a number on are matched; so each match for a proper part is there, once (`parts_once`,
//!   proofs/ProperParts). A pattern that becomes one element, or none, has no instance among proper parts
//!   (`nothing_joined`, proofs/Entries).
//! - So the matches for the whole and for proper parts, each with what it takes, are all, each once (`entries_once`),
//!   and candidates in the same sense (`AreEntries`; `entered`, `entries_kept`, proofs/Inside): `inside_candidates`.
//!   There `single` has no list for the position behind the pattern's, so that anything may stand at it.
//!
//! Conditions: the signature is accepted, with sorts that lie in their kinds; the pattern is raw, and the given values
//! are such terms, with their variables' sorts. Then the pattern by position is numbered as its variables are met, its
//! operators have the arguments that their axioms ask for, and the given values may stand at their positions
//! (`pattern_numbered`, `pattern_arities`, `given_fit`): what the laws of mw_matching ask for.
#![tactic(auto)]
