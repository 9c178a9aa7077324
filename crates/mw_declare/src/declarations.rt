// What a module declares.
ghost use Rattle.std.specs.Prelude.{◌≡◌, ℕ, length, map, option_map, IfOk, IfErr, IsTrue, codes};
ghost use Rattle.mw_logic.specs.Signature.{IsSortNamed};
ghost use Rattle.mw_logic.specs.Accepted.{IsAccepted, IsWellSorted};
ghost use Rattle.mw_logic.specs.Built.{HasBuiltIns};
ghost use Rattle.mw_logic.specs.Preregular.{HasItsSorts};
ghost use Rattle.mw_sorting.specs.PreregularModulo.{HasNaturals};
ghost use Rattle.mw_term.specs.Signatures.{identity_of};
ghost use Rattle.mw_declare.specs.Operators.{identity_in};
ghost use Rattle.mw_module.specs.Units.{seen_all};
ghost use Rattle.mw_module.specs.Causes.{HasCause};
ghost use Rattle.mw_carry.specs.Laws.{OperatorsApart};
ghost use Rattle.mw_declare.specs.Declarations.{Declares, DeclarationFault, declarations_with};

use crate::built::{Built, Reached, built_in};
use crate::hierarchy::{Hierarchy, order_sorts};
use crate::operators::{DeclaredOperators, all_operators};
use crate::variables::Typing;
use mw_module::{Stated, UnitError};
use mw_poset::Poset;
use mw_term::{Identity, Seq, Signature, VarId};
use std::alloc::{AllocError, Global};

/// What a module declares: its signature with the order of its sorts, and its variables.
#[derive(Drop)]
pub struct Declarations {
    pub signature: Signature,
    pub order: Poset,
    pub variables: Seq<VarId>,
}

/// What a module with these variables, sorts and operators declares, and with what is built in.
fn all_declared(
    alloc: Global,
    typing: &Typing,
    hierarchy: Box<Hierarchy>,
    built: Built,
    operators: DeclaredOperators<'_>,
    identities: &[Option<Identity>],
) -> Result<Box<Declarations>, AllocError>
    requires { map (option_map identity_of) identities.now ≡ map (identity_in built operators) operators }
    ensures { IfOk result (λ d. d.value ≡ declarations_with built hierarchy.value operators.entry typing.now) }
{
    let operators = operators.list(alloc, built, identities)?;
    let variables = typing.variables(alloc, &hierarchy.names)?;
    let sorts = hierarchy.names.list(alloc)?;
    let Hierarchy { pairs, order, .. } = Box::into_inner(hierarchy);
    let signature = Signature {
        sorts,
        pairs: Seq::of(pairs),
        operators,
        nat: built.nat.is_some(),
        qid: built.qid,
    };
    let declarations = Declarations {
        signature,
        order,
        variables,
    };
    Ok(Box::new(alloc, declarations)?)
}

/// What statements declare together with these variables, or the first fault of their declarations: first that of a
/// sort that isn't declared, then that of a sort below itself, then that of an operator whose axioms aren't kept, or
/// whose attributes disagree; the last two have this line. Variables that these statements don't declare may have a
/// sort that isn't declared; its number is 0. `reached` says which modules of the prelude are among those of the
/// statements.
pub fn declare(
    alloc: Global,
    line: u32,
    reached: Reached,
    typing: &Typing,
    statements: &[Stated<'_, '_>],
) -> Result<Box<Declarations>, UnitError>
    ensures declared { IfOk result (λ d. Declares reached typing.now (seen_all statements.now) d.value) }
    ensures order { IfOk result (λ d. let sig = d.value.signature in
        d.value.order ≡ record { sorts = length sig.sorts; pairs = sig.pairs }) }
    ensures accepted { IfOk result (λ d. IsAccepted d.value.signature) }
    ensures well_sorted { IfOk result (λ d. IsWellSorted d.value.signature) }
    ensures numbers { IfOk result (λ d. HasItsSorts d.value.signature) }
    ensures apart { IfOk result (λ d. OperatorsApart d.value.signature) }
    ensures naturals { IfOk result (λ d. IsTrue d.value.signature.nat → HasNaturals d.value.signature) }
    ensures quoted { IfOk result (λ d. IsTrue d.value.signature.qid
        → (S : ℕ) × IsSortNamed d.value.signature S (codes "Qid")) }
    ensures built { IfOk result (λ d. HasBuiltIns d.value.signature) }
    ensures fault { IfErr result (HasCause (DeclarationFault reached line (seen_all statements.now))) }
{
    let hierarchy = order_sorts(alloc, line, statements)?;
    let built = built_in(reached, &hierarchy, statements)?;
    let operators = all_operators(alloc, &hierarchy, built.truth, statements)?;
    let identities = operators.identities(alloc, line, built)?;
    let identities = identities.as_slice();
    Ok(all_declared(alloc, typing, hierarchy, built, operators, identities)?)
}
