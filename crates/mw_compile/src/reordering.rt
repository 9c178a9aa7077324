// Patterns with the arguments of associative and commutative operators in the order in which a search is to meet them.
ghost use Rattle.std.specs.Prelude.{◌≡◌, ℕ, IfOk, IsTrue, true};
ghost use Rattle.mw_logic.specs.Parts.{is_assoc};
ghost use Rattle.mw_logic.specs.NormalForm.{is_comm};
ghost use Rattle.mw_logic.specs.Terms.{terms_of};
ghost use Rattle.mw_solving.specs.Reordered.{Reordered, AreReordered};
ghost use Rattle.mw_compile.specs.Groups.{pointed};

use crate::groups::{Group, Groups};
use crate::singles::Singles;
use crate::variables::Variables;
use mw_canon::{Axioms, Facts};
use mw_term::{OpId, Term, View, copy};
use std::alloc::{AllocError, Global};

/// Whether an operator is associative and commutative.
fn is_bag(facts: &Facts, operator: OpId) -> bool
    ensures { IsTrue result → (is_assoc facts.now operator ≡ true) × (is_comm facts.now operator ≡ true) }
{
    match facts.axioms(operator) {
        Axioms::Associative { comm, .. } => comm,
        _ => false,
    }
}

/// Whether a variable stands in a term.
fn has_variable(term: &Term) -> bool {
    match term.view() {
        View::Var(_) => true,
        View::Op(_, args) => {
            let mut rest = args;
            while let [arg, after @ ..] = rest {
                if has_variable(arg) {
                    return true;
                }
                rest = after;
            }
            false
        }
        _ => false,
    }
}

/// Whether a variable stands under an associative and commutative operator in a term.
fn has_choice(facts: &Facts, term: &Term) -> bool {
    let View::Op(operator, args) = term.view() else {
        return false;
    };
    if is_bag(facts, operator) {
        return has_variable(term);
    }
    let mut rest = args;
    while let [arg, after @ ..] = rest {
        if has_choice(facts, arg) {
            return true;
        }
        rest = after;
    }
    false
}

/// A pattern with the arguments of associative and commutative operators in another order, at every level, group by
/// group. Its variables are known then, beside those that were known. Parts with no choice are shared.
#[cycle(reordered)]
pub fn reordered<'a>(
    alloc: Global,
    singles: &Singles<'_>,
    known: &mut Variables<'a>,
    term: &'a Term,
) -> Result<Term, AllocError>
    ensures { IfOk result (Reordered singles.now term.now) }
{
    if !has_choice(singles.facts(), term) {
        known.put_all(term)?;
        return copy(term);
    }
    match term.view() {
        View::Op(operator, args) => {
            let args = ordered(alloc, singles, known, operator, args)?;
            let made = all_reordered(alloc, singles, known, args.as_slice())?;
            let term = Term::apply(alloc, operator, made)?;
            Ok(term)
        }
        _ => copy(term),
    }
}

#[cycle(reordered)]
fn all_reordered<'a>(
    alloc: Global,
    singles: &Singles<'_>,
    known: &mut Variables<'a>,
    terms: &[&'a Term],
) -> Result<Vec<Term>, AllocError>
    ensures { let sig = singles.now in
        IfOk result (λ ts. (f : ℕ) → AreReordered sig f (terms_of (pointed terms.now)) (terms_of ts.items)) }
{
    let mut made = Vec::with_capacity(alloc, terms.len())?;
    for term in terms {
        let term = reordered(alloc, singles, known, term)?;
        made.push(term)?;
    }
    Ok(made)
}

/// The arguments of an operator in the order in which a search is to meet them.
fn ordered<'a>(
    alloc: Global,
    singles: &Singles<'_>,
    known: &Variables<'a>,
    operator: OpId,
    args: &'a [Term],
) -> Result<Vec<&'a Term>, AllocError>
    ensures { IfOk result (λ ts. AreReordered singles.now operator (terms_of args.now) (terms_of (pointed ts.items))) }
{
    if is_bag(singles.facts(), operator) {
        grouped(alloc, singles, known, operator, args)
    } else {
        listed(alloc, args)
    }
}

/// All arguments as they stand.
fn listed<'a>(alloc: Global, args: &'a [Term]) -> Result<Vec<&'a Term>, AllocError>
    ensures { IfOk result (λ ts. pointed ts.items ≡ args.now) }
{
    let mut list = Vec::with_capacity(alloc, args.len())?;
    for arg in args {
        list.push(arg)?;
    }
    Ok(list)
}

/// The arguments group by group: those that become one element as they are linked by variables, and the others of each
/// group as they stand.
fn grouped<'a>(
    alloc: Global,
    singles: &Singles<'_>,
    known: &Variables<'a>,
    operator: OpId,
    args: &'a [Term],
) -> Result<Vec<&'a Term>, AllocError>
    requires assoc { is_assoc singles.now operator ≡ true }
    requires comm { is_comm singles.now operator ≡ true }
    ensures { IfOk result (λ ts. AreReordered singles.now operator (terms_of args.now) (terms_of (pointed ts.items))) }
{
    let rigid = in_rigid(alloc, singles, operator, args)?;
    let repeated = repeated(alloc, args)?;
    let mut groups = Groups::none(alloc);
    for arg in args {
        let group = if singles.is_rigid(operator, arg) {
            Group::One
        } else {
            group_of(arg, known, &rigid, &repeated)
        };
        groups.put(group, arg)?;
    }
    let list = groups.in_order(alloc, known)?;
    Ok(list)
}

/// The variables of those arguments of an operator that become one element.
fn in_rigid<'a>(
    alloc: Global,
    singles: &Singles<'_>,
    operator: OpId,
    args: &'a [Term],
) -> Result<Variables<'a>, AllocError> {
    let mut variables = Variables::none(alloc);
    for arg in args {
        if singles.is_rigid(operator, arg) {
            variables.put_all(arg)?;
        }
    }
    Ok(variables)
}

/// The variables that stand more than once among arguments.
fn repeated<'a>(alloc: Global, args: &'a [Term]) -> Result<Variables<'a>, AllocError> {
    let mut met = Variables::none(alloc);
    let mut repeated = Variables::none(alloc);
    for arg in args {
        if let View::Var(x) = arg.view() {
            let is_new = met.put(x)?;
            if !is_new {
                repeated.put(x)?;
            }
        }
    }
    Ok(repeated)
}

/// The group of an argument that may become other than one element.
fn group_of(
    arg: &Term,
    known: &Variables<'_>,
    rigid: &Variables<'_>,
    repeated: &Variables<'_>,
) -> Group {
    match arg.view() {
        View::Var(x) if known.has(x) || rigid.has(x) => Group::Known,
        View::Var(x) if repeated.has(x) => Group::Repeated,
        _ => Group::Other,
    }
}
