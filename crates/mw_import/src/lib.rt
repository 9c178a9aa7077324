//! The modules that imports reach, each once, in flattened order.
//!
//! [`Units`] holds the units whose modules were accepted, each with the units that it reaches. A module's imports
//! come first, in the order of their lines, each with what it reaches before itself; each module stands once, where
//! it first comes; the module's own statements come last. `protecting`, `extending` and `including` mean the same.
//! The first accepted unit is imported by each later one, before its own imports and without a statement.
//!
//! - Units are named by their numbers, from 0 in the order in which they were accepted. [`Flat`] is the list of those
//!   that a module reaches, without the module itself.
//! - `flatten` goes over the import statements in order. An import of the module's own name is circular, whether or
//!   not a unit has that name; else an import of a name that no unit has is unknown: the first import at fault
//!   decides. What an import brings goes into a set that keeps order. Where its unit is in the set already, nothing
//!   is done, since all that the unit reaches is there too.
//! - `reaches` says whether a module has a module of a name: itself, or one that it reaches.
//! - `accept` adds a unit behind the others, with the list that `flatten` gave, so a list is made once for each
//!   module. A unit imports units before it alone, so no longer way leads round.
//! - `statements` lends the forms of a flattened module's statements, from the units and from the module's own: those
//!   of the units that are reached are told at the line that the caller gives, its own at their own lines.
//!
//! Proved (specs/Flat): `flatten` answers the list of what the first unit brings and of what the imports name
//! (`IsFlat`), each unit where it first stands, or the fault of the first import that has one (`ImportFault`), with its
//! line and name. `reaches` is exactly whether the unit of that name is in the list, or the name is the module's own
//! (`is_reached`). `statements` are exactly those of the units in the list and then its own (`all_statements`).
//! `accept` adds exactly that unit, and leaves the units as they were where memory ran out; `number` is the place of
//! the unit of a name. Of all `Units` it holds that each unit reaches units before it alone, that with one it reaches
//! all that this one brings, and that no two have one name (`AreAccepted`, which `shows` tells). `flattened_within` has
//! the laws (specs/Laws): each statement of a module that is reached is among those of the module that reaches it, by
//! its form, and each of its modules is one of that module's; and the statements and the modules of a flattened unit
//! stay the same when more units are accepted. That a list is of these units is a `requires` of `statements` and
//! `accept`, and that no unit has the name is one of `accept`. `Memory` may come at any call that takes an allocator.
//!
//! Cost: a module's list costs a look-up for each import, and what the lists of the imports that are new to it hold;
//! `reaches` a look-up and one pass over the list; the list of statements has one entry for each, and no form is
//! copied. Only tested, by the sources in cases/: that the definitions are the language that is meant.
#![tactic(auto)]

mod laws;
mod units;

pub use laws::flattened_within;
pub use units::{Flat, Units};
