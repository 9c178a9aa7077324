// What is wrong with operators.
ghost use Rattle.std.specs.Prelude.{◌≡◌, ◌&&◌, ◌||◌, not, true, nat_eq, ℕ, List, length, IfOk, Some, None, option_map};
ghost use Rattle.mw_logic.specs.Signature.{constant_of, numeral_of};
ghost use Rattle.mw_logic.specs.Accepted.{are_two, is_accepted_operator};
ghost use Rattle.mw_term.specs.Signatures.{identity_of};
ghost use Rattle.mw_declare.specs.Hierarchy.{Hierarchy as HierarchyOf};
ghost use Rattle.mw_declare.specs.Operators.{Declared, identity_in, is_numeric, IsOfLeastKinds, IsNumbered, signature_with};
ghost use Rattle.mw_declare.specs.Operators.{operator_of as operator_among};
ghost use Rattle.mw_declare.specs.Faults.{wrong_with};
ghost use Rattle.mw_declare.specs.Freezing.{are_in_range as in_range};
ghost use Rattle.mw_declare.specs.Seen.{seen_operator};

use crate::built::Built;
use crate::freezing::{are_in_range, counted, freezes_alike};
use crate::operators::{Profile, Said};
use mw_module::{Attributes, FaultKind};
use mw_term::{Identity, KindId, Name};
use std::alloc::{AllocError, Global};

/// Whether these kinds are two of this one, where `assoc` asks for it.
fn fits_assoc(assoc: bool, args: &[KindId], kind: KindId) -> bool
    ensures { result ≡ not assoc || are_two (λ K L. nat_eq K kind && nat_eq L kind) args.now }
{
    match args {
        [first, second] => !assoc || *first == kind && *second == kind,
        _ => !assoc,
    }
}

/// Whether these kinds are two, and the same, where `comm` asks for it.
fn fits_comm(comm: bool, args: &[KindId]) -> bool
    ensures { result ≡ not comm || are_two nat_eq args.now }
{
    match args {
        [first, second] => !comm || first == second,
        _ => !comm,
    }
}

/// Whether a kind is that of numbers, where there are some.
fn is_of_numbers(nat: Option<KindId>, kind: KindId) -> bool
    ensures { result ≡ is_numeric nat kind }
{
    match nat {
        Some(numbers) => numbers == kind,
        None => false,
    }
}

/// Whether an identity is there, where `assoc` says whether its operator is associative, whose values are of this kind.
/// A numeral is of the kind of numbers.
fn fits_identity(nat: Option<KindId>, assoc: bool, kind: KindId, identity: Option<Identity>) -> bool
    ensures none { option_map identity_of identity ≡ None → result ≡ true }
    ensures constant { (n : ℕ) → option_map identity_of identity ≡ Some (constant_of n)
        → result ≡ assoc && not (nat_eq n 0) }
    ensures numeral { (n : ℕ) → option_map identity_of identity ≡ Some (numeral_of n)
        → result ≡ assoc && is_numeric nat kind }
{
    match identity {
        None => true,
        Some(Identity::Constant(number)) => assoc && number != 0,
        Some(Identity::Nat(_)) => assoc && is_of_numbers(nat, kind),
    }
}

/// Whether an operator's axioms are kept ones, which fit its kinds, and the arguments that are said to be frozen are
/// there, of which there are so many.
fn has_kept_axioms(
    built: Built,
    arity: u32,
    profile: &Profile,
    said: &Said<'_>,
    identity: Option<Identity>,
) -> bool
    requires { arity ≡ length profile.now.args.items }
    ensures { (h : HierarchyOf) (os : List Declared) → IsNumbered h built → let o = seen_operator (profile.now, said.now) in IsOfLeastKinds h o
        → option_map identity_of identity ≡ identity_in built os o
        → result ≡ (is_accepted_operator (signature_with built h os) (operator_among built os o) && in_range (length o.profile.args) o.attributes) }
{
    let args = profile.args.as_slice();
    let Attributes { assoc, comm, .. } = &said.attributes;
    let (assoc, comm) = (*assoc, *comm);
    let kept = fits_assoc(assoc, args, profile.result)
        & (fits_comm(comm, args)
            & (fits_identity(built.nat, assoc, profile.result, identity)
                & freezes_alike(assoc | comm, arity, &said.attributes)));
    kept & are_in_range(arity, &said.attributes)
}

/// What is wrong with an operator of this identity.
pub fn fault(
    alloc: Global,
    built: Built,
    profile: &Profile,
    said: &Said<'_>,
    identity: Option<Identity>,
) -> Result<Option<FaultKind>, AllocError>
    ensures { (h : HierarchyOf) (os : List Declared) → IsNumbered h built → let o = seen_operator (profile.now, said.now) in IsOfLeastKinds h o
        → option_map identity_of identity ≡ identity_in built os o
        → IfOk result (λ k. k ≡ wrong_with (signature_with built h os) built os o) }
{
    let arity = counted(profile.args.as_slice())?;
    if !has_kept_axioms(built, arity, profile, said, identity) {
        let name = Name::of(profile.spelling.as_slice().to_vec(alloc)?);
        return Ok(Some(FaultKind::BadAxioms(name)));
    }
    if said.attributes.clash {
        let name = Name::of(profile.spelling.as_slice().to_vec(alloc)?);
        return Ok(Some(FaultKind::AttributesDisagree(name)));
    }
    Ok(None)
}
