// The kinds of units.
ghost use Rattle.std.specs.Prelude.{◌≡◌};
ghost use Rattle.mw_module.specs.Kinds as kinds;

use crate::faults::FaultKind;
use crate::words::same;

/// A kind of unit, by its first word.
#[derive(Clone, Copy)]
pub enum Kind {
    /// `fmod`
    Functional,
    /// `mod`
    System,
    /// `omod`
    Object,
    /// `fth`
    FunctionalTheory,
    /// `th`
    SystemTheory,
    /// `oth`
    ObjectTheory,
    /// `view`
    View,
    /// `smod`
    Strategy,
    /// `proof`, where proofs are asked for
    Proof,
    Command,
}

/// The kind of a unit with this first word.
pub fn kind_of(proofs: bool, word: &[u8]) -> Kind
    ensures { result ≡ kinds.kind_of proofs word.now }
{
    if same(word, b"fmod") {
        Kind::Functional
    } else if same(word, b"mod") {
        Kind::System
    } else if same(word, b"omod") {
        Kind::Object
    } else if same(word, b"fth") {
        Kind::FunctionalTheory
    } else if same(word, b"th") {
        Kind::SystemTheory
    } else if same(word, b"oth") {
        Kind::ObjectTheory
    } else if same(word, b"view") {
        Kind::View
    } else if same(word, b"smod") {
        Kind::Strategy
    } else if proofs && same(word, b"proof") {
        Kind::Proof
    } else {
        Kind::Command
    }
}

/// The token that ends units of this kind.
pub fn end_word(kind: Kind) -> &'static [u8]
    ensures { result.now ≡ kinds.end_word kind }
{
    match kind {
        Kind::Functional => b"endfm",
        Kind::System => b"endm",
        Kind::Object => b"endom",
        Kind::FunctionalTheory => b"endfth",
        Kind::SystemTheory => b"endth",
        Kind::ObjectTheory => b"endoth",
        Kind::View => b"endv",
        Kind::Strategy => b"endsm",
        Kind::Proof => b"endproof",
        Kind::Command => b".",
    }
}

/// What is wrong where the input ends in a unit of this kind.
pub fn unended(kind: Kind) -> FaultKind
    ensures { result ≡ kinds.unended kind }
{
    match kind {
        Kind::Functional | Kind::System | Kind::Object => FaultKind::UnendedModule,
        Kind::FunctionalTheory
        | Kind::SystemTheory
        | Kind::ObjectTheory
        | Kind::View
        | Kind::Strategy => FaultKind::NotInProfile,
        Kind::Proof => FaultKind::UnendedProof,
        Kind::Command => FaultKind::UnendedCommand,
    }
}
