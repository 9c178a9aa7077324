//! The prelude: four modules that each source may use, as texts, and which of them a source needs. It stands on nothing.
//!
//! - [`Predefined`] has BOOL, NAT, QID and CONFIGURATION, each with its name and its text. The texts are to be read by
//!   the same front end as a source, before it. NAT's operators have no equations: numbers are reckoned elsewhere.
//! - [`Mentioned`] collects, from the texts of a source's tokens, which modules it names: `nothing`, then `with` for
//!   each token; `prelude` answers the bytes that are to be read before the source: nothing where there is no token,
//!   else BOOL, and behind it NAT, QID and CONFIGURATION, each where a token's text is its name;
//!   CONFIGURATION also where one is `omod`, since object modules import it.
//!
//! Proved: names and texts are those of specs/Modules, byte for byte (`name_of`, `text_of`), and the bytes are exactly
//! those that the texts of tokens need (`prelude_for`, specs/Mentions). Want of memory may come at `prelude`. Only
//! tested: that the texts are modules that the front end accepts, and that they are the ones that are meant.
#![tactic(auto)]

mod mentions;
mod modules;

pub use mentions::Mentioned;
pub use modules::Predefined;
