//! Terms of one signature as they stand in another, which has its sorts and operators too.
//!
//! Sorts are told by their names, kinds by those of their sorts, operators by their names and kinds. So a statement is
//! read once, in the signature of its own module, and carried to each module that imports it. What stands for what is
//! said in specs/Carried: `IsPart`, that the one signature is part of the other; `IsCarried`, that a term stands for
//! another; and the same of fragments and statements, which a caller carries term by term.
//!
//! Proved:
//!
//! - [`Carrier::carry`] gives a term that stands for the given one (`IsCarried`), and the carrier stays one between the
//!   same signatures. It wants a raw term, the sorts of whose variables are there (`HasSortsOf`), of a signature that
//!   has its sorts and is part of the other. In an accepted signature each operator is found (`Carrier::look_for`).
//! - [`Carrier::sorted`] gives the sort of the same name for a sort that a condition tests, and for a kind, which is told
//!   there by a sort, the kind told by the sort of that name (`IsSameSorted`).
//! - [`carried_terms_stay`]: where the other signature is accepted, what stands for a raw term is a raw term, of the
//!   kind that stands for its kind. The sorts of its variables are there in any case.
//! - [`carried_once`]: where it is accepted, and no two of its operators have one name and the same kinds, no two terms
//!   stand for one.
//!
//! How it works: a [`Target`] keeps two hash tables, of sorts by name and of operators by profile, which is the name
//! with the kinds of the arguments and of the value, each told by its least sort. Its invariant is that what is looked
//! up is right, and that what isn't found isn't there (specs/Tables). A [`Carrier`] goes down a term and builds the
//! other one. For an operator that it meets for the first time it makes the profile that one there has to have, by the
//! names of the sorts that the kinds are told by (`IsProfileFor` of specs/Profiles), looks it up, and keeps what it
//! found.
//!
//! Cost: a `Target` takes one look-up for each sort and operator, and a copy of its name. A term takes one look-up for
//! each operator and each variable that stands in it, and copies of its names; numerals take none. Besides, each
//! operator that a carrier meets takes one look-up for its profile and one for each kind in it, once. So each operator
//! in the statements of a module is looked for once for each importer.
//!
//! Not promised: that carried operators have the same declarations, axioms or other attributes; which of two sorts with
//! one name, or of two operators with one profile, is found. Want of memory is the only error. It stands for numbers of
//! more than 32 bits too, and for an operator that isn't found, for which the other signature isn't an accepted one.
//! `carry` calls itself as deep as the term is.
#![tactic(auto)]

mod carrier;
mod laws;
mod target;

pub use carrier::Carrier;
pub use laws::{carried_once, carried_terms_stay};
pub use target::{Profile, Target};
