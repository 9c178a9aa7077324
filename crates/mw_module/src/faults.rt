// What is wrong with a unit.
ghost use Rattle.std.specs.Prelude.{◌≡◌};
ghost use Rattle.mw_module.specs.declared.faults.UnitError.TheVariants.{Memory};

use mw_term::{Name, Seq};
use std::alloc::{AllocError, AllocFailed};

/// The kinds of faults, in the order in which they are looked for in a source. A name, sort or operator is held as
/// it is spelled.
#[derive(Drop)]
pub enum FaultKind {
    /// A byte that stands in no token.
    BadByte,
    /// A block comment whose closing parenthesis is missing.
    UnendedComment,
    /// The input ends in a module.
    UnendedModule,
    /// The input ends in a command.
    UnendedCommand,
    /// The input ends in a proof.
    UnendedProof,
    /// A form that isn't read.
    NotInProfile,
    /// A statement that begins as one that is read, and isn't of its form.
    BadStatement,
    /// A name that is taken: a module's, or a variable's with another sort.
    AlreadyDefined(Name),
    /// No accepted module has this name.
    UnknownModule(Name),
    /// A module that imports itself.
    CircularImport(Name),
    /// No sort has this name.
    UnknownSort(Name),
    /// The least sort that is below itself.
    SortCycle(Name),
    /// Axioms that don't go together, or don't fit the operator.
    BadAxioms(Name),
    /// Two identities, precedences or gathers of one operator.
    AttributesDisagree(Name),
    /// An operator that has no least result at these argument sorts.
    NotPreregular { operator: Name, sorts: Seq<Name> },
    /// An associative operator whose two nestings differ in sort at these sorts.
    NotAssociative { operator: Name, sorts: Seq<Name> },
    /// An operator whose identity lowers this sort.
    LowIdentity { operator: Name, sort: Name },
    /// A term of too many tokens.
    TermTooLong,
    /// No term is spelled so.
    NoParse,
    /// More than one term is spelled so.
    Ambiguous,
    /// A term that is nested too deep.
    TooDeep,
    /// A number that is too large.
    NumberTooLarge,
    /// A left side that is a variable.
    LoneVariable,
    /// A variable that nothing binds.
    UnboundVariable(Name),
    /// A variable in a term that must have none.
    OpenTerm,
    /// Objects that a rule can't rewrite.
    BadObject,
    /// A bound that isn't a number in range, or that the command doesn't take.
    BadBound,
    /// There is no module to take.
    NoModule,
}

/// A fault, with the line of the statement's first token, or else of the unit's.
#[derive(Drop)]
pub struct Fault {
    pub line: u32,
    pub kind: FaultKind,
}

/// Why there is no answer for a unit.
#[derive(Drop)]
pub enum UnitError {
    Fault(Fault),
    Memory,
}

impl From<AllocError> for UnitError {
    ghost from_gives = { λ _ e. e ≡ Memory };

    fn from(_: AllocError) -> Self {
        UnitError::Memory
    }
}

impl<T: Drop> From<AllocFailed<T>> for UnitError {
    ghost from_gives = { λ _ e. e ≡ Memory };

    fn from(_: AllocFailed<T>) -> Self {
        UnitError::Memory
    }
}
