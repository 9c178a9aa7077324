//! Whether two contexts are contexts of one module, exactly.
//!
//! It is for proofs and claims that come from elsewhere: a proof over another context may be taken over only where both
//! contexts are of one module. [`same_module`] is true exactly where the modules are equal, as mw_logic has them. So
//! the same sorts, subsort pairs, operators and statements stand in both, in the same order. Of operators the names,
//! kinds, declarations, axioms and all other attributes are compared. Of statements it is the sides and conditions as
//! they are written, the variables, and what kind of statement they are. Modules that mean the same and are written in
//! another way are different ones.
//!
//! How it works: list by list (`all_same`, for each type whose values are compared exactly: `Alike`), what is cheap
//! first. Terms are compared as deep as the first one is.
//!
//! Cost: no memory, and one walk over both modules at most, which ends at the first difference.
#![tactic(auto)]

mod lists;
mod modules;
mod raws;
mod signatures;
mod statements;

pub use modules::same_module;
