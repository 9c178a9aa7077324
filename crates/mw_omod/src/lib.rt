//! Object modules: what their classes declare, and their rules, completed.
//!
//! [`declare`] makes of the unit of an object module the unit that declares the same in forms that each module may
//! have: an import of CONFIGURATION in front, and in front of each class the forms that it stands for. Nothing is
//! written as text and read again. A unit of any other kind stays as it is.
//!
//! A rule names of each object a class and those attributes that it is about. Such an object, written `< O : C | as >`
//! with a class constant C and with nothing but attribute operators in `as`, stands for each object of C's subclasses
//! too, whatever other attributes it has. [`complete`] makes that so: on both sides the class becomes a variable of
//! the sort C, and behind the attributes comes a variable for all others. Attributes that only one side names are put
//! on the other side too: on the left with a fresh variable, on the right as on the left (specs/Completion).
//!
//! Two objects are the same where their names are equal modulo the axioms. The elements of a side are those of its
//! flattened top. An object whose class is a variable, or that has anything else among its attributes, stays as it is,
//! and so does one on the right whose name isn't on the left.
//!
//! [`Classes`] tells of each operator by its number whether it is a class constant or an attribute operator, and of
//! which sort, and which operators make configurations, objects and sets.
//!
//! Proved:
//!
//! - `declare`: the unit is exactly that (`declared_unit` of specs/Declaring); what is known of its statements is known
//!   of those of the new one, and they are made of tokens where its own are (proofs/Declaring).
//! - `complete`: the statement with both sides completed, its variables listed anew, and nothing else changed
//!   (`IsCompletion`); `BadObject` only where two written objects of a side have one name, an object has an attribute
//!   twice, or objects of one name have different class constants on the two sides (`IsBad`), and always there, but for
//!   want of memory.
//! - Fresh variables have a blank in front of their names, which no token has (specs/Objects), and no other variables
//!   are added ([`only_added`]). Quoted identifiers stay tokens ([`identifiers_stay`]).
//! - A completed statement is what a statement must be: its sides are terms of the signature of one kind, with sorts
//!   that are there, and variables that are bound stay bound (the laws [`sides_stay`] and [`variables_stay_bound`]).
//!   It is the only one ([`completed_once`]).
//!
//! Conditions: the sides are terms of the signature, and the classes are of it (`AreClasses`). They may be of any size:
//! what is too deep or has too large a number is told of the completed sides.
//!
//! Besides, `meet_all`, `mentioned` and `variables_of` meet the variables of terms and statements, in order of mention.
//!
//! Cost: `declare` is linear in the statements. `complete` takes a walk over the sides, a canonical form for the name
//! of each written object, and a comparison for each pair of objects and for each pair of attributes of two objects; a
//! text has at most 1,024 tokens. Want of memory may come at any call.
#![tactic(auto)]

ghost use Rattle.std.specs.Prelude.{◌≡◌};
ghost use Rattle.mw_omod.specs.declared.CompletionError.TheVariants.{Memory};

mod classes;
mod completing;
mod copying;
mod elements;
mod faults;
mod forms;
mod joining;
mod laws;
mod mentions;
mod names;
mod objects;
mod spreading;

pub use classes::{Classes, Role};
pub use completing::complete;
pub use laws::{completed_once, identifiers_stay, only_added, sides_stay, variables_stay_bound};
pub use mentions::{meet_all, mentioned, variables_of};
pub use spreading::declare;
use std::alloc::AllocError;

/// Why a rule isn't completed.
#[derive(Debug, Clone, Copy, PartialEq, Eq)]
pub enum CompletionError {
    /// Two objects of one side have one name, an object has an attribute twice, or objects of one name are of
    /// different classes on the two sides.
    BadObject,
    Memory,
}

impl From<AllocError> for CompletionError {
    ghost from_gives = { λ _ e. e ≡ Memory };

    fn from(_: AllocError) -> Self {
        CompletionError::Memory
    }
}
