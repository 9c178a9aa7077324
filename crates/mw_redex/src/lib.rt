//! Places in canonical terms, and replacement there.
//!
//! A place is a path, the numbers of arguments from 1 on the way to a part, and maybe several arguments of the
//! associative operator at its end. `Places` gives the paths of a term, one after another; `replace` puts a term at a
//! place, and applies the operators above it again; `is_open` tells whether rules may change what stands at a path.
//!
//! Proved (specs/Paths, specs/Replaced), for every accepted signature:
//!
//! - `Places::new` lists the paths breadth first (`paths`), and `next` answers the first and takes it off, None exactly
//!   where none is left; where memory is wanting the same ones are still to come. The list has the paths at whose end
//!   something stands, each once, and none before a shorter one (`each_path_once`, `paths_lengthen`).
//! - `replace` answers the term with another at the place (`replaced_at`): it is canonical, and has at most 1,000
//!   levels and no successor of the largest numeral. `Deep` comes only where it has more levels, `Nat` only where it
//!   has such a successor and no more levels.
//! - Replacements at places of a canonical term (`ReplacesAt`) are those of the logic (`ReplacesIn` of mw_logic), for
//!   all statements and for rules alone: each is one (`place_replaces`), and each of the logic's is one at some place
//!   (`replacement_has_place`). So each part stands at some place (`part_has_place`). At a place stands one part, and
//!   one term comes of a replacement there (`one_replacement`).
//! - `is_open` says yes exactly where no argument on the way is frozen (`IsOpenWay`).
//!
//! Conditions: the term and the one that is put in are canonical terms that are admitted. `replace` asks no more: a
//! path that leads nowhere leaves the term as it is.
//!
//! Cost: `Places` holds the paths that wait, which end in two neighbouring levels, and a step takes the number of the
//! arguments that it comes to times the path's length. `replace` copies the arguments of each operator on the way, by
//! one count each, and takes what `rebuild` of mw_canon takes; its native stack grows with the path. Neither proved nor
//! tested here: time, and that calls answer with memory at hand.
#![tactic(auto)]

mod exchanging;
mod laws;
mod opening;
mod replacing;
mod walking;

pub use laws::{
    each_path_once, one_replacement, part_has_place, paths_lengthen, place_replaces,
    replacement_has_place,
};
pub use opening::is_open;
pub use replacing::{Place, replace};
pub use walking::Places;
