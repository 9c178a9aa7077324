// Statements of other modules, as they stand in a module that reaches them.
ghost use Rattle.std.specs.Prelude.{◌≡◌, ◌++◌, ◌<◌, ℕ, List, [], ◌∷◌, length, map, slice_get, Some, IfOk, IfErr, OnOk, MatchResult};
ghost use Rattle.mw_logic.specs.Signature.{Member, IsRawTerm};
ghost use Rattle.mw_logic.specs.Preregular.{HasItsSorts};
ghost use Rattle.mw_poset.specs.SortOrder.{order_of};
ghost use Rattle.mw_term.specs.Raws.{raw_term};
ghost use Rattle.mw_term.specs.Statements.{fragment_of};
ghost use Rattle.mw_module.specs.Causes.{HasCause};
ghost use Rattle.mw_least.specs.Conditions.{AreRawFragments};
ghost use Rattle.mw_least.specs.Workable.{AreSides};
ghost use Rattle.mw_carry.specs.Carried.{IsPart, IsCarried, IsCarriedFragment, AreCarriedFragments};
ghost use Rattle.mw_carry.specs.Laws.{HasSortsOf};
ghost use Rattle.mw_build.specs.Imported.{Accepted, Origin, HaveSortsAmong, IsNotOwise, IsImported, ImportedFault, AreImported, FirstImportedFault, origins_in, origins_of, ArePartsOf};

use crate::modules::Module;
use crate::statements::statement_of;
use mw_canon::Facts;
use mw_carry::{Carrier, Target};
use mw_module::{Fault, FaultKind, UnitError};
use mw_poset::Poset;
use mw_term::{Fragment, Raw, Statement};
use std::alloc::{AllocError, Global};

/// The two terms that stand for these.
fn both(
    alloc: Global,
    carrier: &mut Carrier<'_>,
    left: &Raw,
    right: &Raw,
) -> Result<(Raw, Raw), AllocError>
    requires left { IsRawTerm carrier.old.from (raw_term left.now) }
    requires left_sorts { HasSortsOf carrier.old.from (raw_term left.now) }
    requires right { IsRawTerm carrier.old.from (raw_term right.now) }
    requires right_sorts { HasSortsOf carrier.old.from (raw_term right.now) }
    ensures same { carrier.new ≡ carrier.old }
    ensures left { IfOk result (λ p. IsCarried carrier.old.from carrier.old.to (raw_term left.now) (raw_term p.0)) }
    ensures right { IfOk result (λ p. IsCarried carrier.old.from carrier.old.to (raw_term right.now) (raw_term p.1)) }
{
    let first = carrier.carry(alloc, left)?;
    let second = carrier.carry(alloc, right)?;
    Ok((first, second))
}

/// The fragment that stands for one.
fn fragment(
    alloc: Global,
    carrier: &mut Carrier<'_>,
    fragment: &Fragment,
) -> Result<Fragment, AllocError>
    requires raw { AreRawFragments carrier.old.from (fragment_of fragment.now ∷ []) }
    requires sorts { HaveSortsAmong carrier.old.from (fragment_of fragment.now ∷ []) }
    ensures same { carrier.new ≡ carrier.old }
    ensures carried { IfOk result (λ f. IsCarriedFragment carrier.old.from carrier.old.to (fragment_of fragment.now) (fragment_of f)) }
{
    match fragment {
        Fragment::Equal(left, right) => {
            let (left, right) = both(alloc, carrier, left, right)?;
            Ok(Fragment::Equal(left, right))
        }
        Fragment::Match(pattern, term) => {
            let (pattern, term) = both(alloc, carrier, pattern, term)?;
            Ok(Fragment::Match(pattern, term))
        }
        Fragment::HasSort(term, sorted) => {
            let sorted = carrier.sorted(*sorted);
            let term = carrier.carry(alloc, term)?;
            Ok(Fragment::HasSort(term, sorted))
        }
        Fragment::Holds(term) => {
            let term = carrier.carry(alloc, term)?;
            Ok(Fragment::Holds(term))
        }
    }
}

/// The fragments that stand for these, one by one.
fn fragments(
    alloc: Global,
    carrier: &mut Carrier<'_>,
    fragments: &[Fragment],
) -> Result<Vec<Fragment>, AllocError>
    requires raw { AreRawFragments carrier.old.from (map fragment_of fragments.now) }
    requires sorts { HaveSortsAmong carrier.old.from (map fragment_of fragments.now) }
    ensures same { carrier.new ≡ carrier.old }
    ensures carried { IfOk result (λ v. AreCarriedFragments carrier.old.from carrier.old.to (map fragment_of fragments.now) (map fragment_of v.items)) }
{
    let mut found = Vec::new(alloc);
    let mut rest = fragments;
    while let [first, after @ ..] = rest {
        let carried = fragment(alloc, carrier, first)?;
        found.push(carried)?;
        rest = after;
    }
    Ok(found)
}

/// The sides and the fragments of a statement.
#[derive(Drop)]
struct Terms {
    left: Raw,
    right: Raw,
    fragments: Vec<Fragment>,
}

/// The sides and the fragments that stand for those of a statement.
fn carried_terms(
    alloc: Global,
    carrier: &mut Carrier<'_>,
    statement: &Statement,
) -> Result<Terms, AllocError>
    requires sides { AreSides carrier.old.from statement.now }
    ensures same { carrier.new ≡ carrier.old }
    ensures left { IfOk result (λ t. IsCarried carrier.old.from carrier.old.to statement.now.left (raw_term t.left)) }
    ensures right { IfOk result (λ t. IsCarried carrier.old.from carrier.old.to statement.now.right (raw_term t.right)) }
    ensures fragments { IfOk result (λ t. AreCarriedFragments carrier.old.from carrier.old.to statement.now.fragments (map fragment_of t.fragments.items)) }
{
    let (left, right) = both(alloc, carrier, &statement.left, &statement.right)?;
    let fragments = fragments(alloc, carrier, statement.fragments.as_slice())?;
    Ok(Terms {
        left,
        right,
        fragments,
    })
}

/// The statement that stands for one of another module, or what is wrong with it here.
fn statement(
    alloc: Global,
    carrier: &mut Carrier<'_>,
    facts: &Facts,
    statement: &Statement,
) -> Result<Result<Statement, FaultKind>, AllocError>
    requires to { carrier.old.to ≡ facts.now }
    requires part { IsPart carrier.old.from facts.now }
    requires numbers { HasItsSorts carrier.old.from }
    requires sides { AreSides carrier.old.from statement.now }
    requires ordinary { IsNotOwise statement.now }
    ensures same { carrier.new ≡ carrier.old }
    ensures imported { IfOk result (λ r. MatchResult r
        (IsImported facts.now (record { signature = carrier.old.from; statement = statement.now }))
        (λ kind. ImportedFault facts.now (record { signature = carrier.old.from; statement = statement.now }) kind)) }
{
    facts.shows();
    let Terms {
        left,
        right,
        fragments,
    } = carried_terms(alloc, carrier, statement)?;
    statement_of(
        alloc,
        facts,
        left,
        right,
        fragments,
        statement.rule,
        statement.executable,
    )
}

/// Adds the statements that stand for a module's own ones, or answers the first fault, at this line.
fn add_module(
    alloc: Global,
    target: &Target<'_>,
    facts: &Facts,
    other: &Module,
    line: u32,
    found: &mut Vec<Statement>,
) -> Result<(), UnitError>
    requires target { target.now ≡ facts.now }
    requires part { IsPart other.now.module.signature facts.now }
    ensures added { (es : List Origin) → AreImported facts.now es found.old.items
        → OnOk result (AreImported facts.now (es ++ origins_in (Some other.now)) found.new.items) }
    ensures fault { (es more : List Origin) → AreImported facts.now es found.old.items
        → IfErr result (HasCause (FirstImportedFault facts.now line (es ++ origins_in (Some other.now) ++ more))) }
{
    let context = other.context();
    context.shows();
    let mut carrier = Carrier::new(alloc, context.signature(), target);
    for origin in other.own() {
        match statement(alloc, &mut carrier, facts, origin)? {
            Ok(carried) => found.push(carried)?,
            Err(kind) => return Err(UnitError::Fault(Fault { line, kind })),
        }
    }
    Ok(())
}

/// The statements that stand for the own ones of the modules of these numbers, in order; or the first fault, at this
/// line.
pub fn imported(
    alloc: Global,
    facts: &Facts,
    order: &Poset,
    modules: &[Module],
    reached: &[usize],
    line: u32,
) -> Result<Vec<Statement>, UnitError>
    requires numbers { HasItsSorts facts.now }
    requires order { order.now ≡ order_of facts.now }
    requires parts { ArePartsOf modules.now reached.now facts.now }
    ensures imported { IfOk result (λ v. AreImported facts.now (origins_of modules.now reached.now) v.items) }
    ensures fault { IfErr result (HasCause (FirstImportedFault facts.now line (origins_of modules.now reached.now))) }
{
    let mut found = Vec::new(alloc);
    if reached.is_empty() {
        return Ok(found);
    }
    let target = Target::of(alloc, facts.signature(), order)?;
    for number in reached {
        add_module(alloc, &target, facts, &modules[*number], line, &mut found)?;
    }
    Ok(found)
}
