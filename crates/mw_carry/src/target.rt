// The sorts and operators of a signature, by what tells them apart.
ghost use Rattle.std.specs.Prelude.{◌≡◌, ℕ, length, IfOk, MatchOption};
ghost use Rattle.mw_logic.specs.Signature.{IsSortNamed, Member};
ghost use Rattle.mw_logic.specs.Preregular.{HasItsSorts, IsSortOf};
ghost use Rattle.mw_poset.specs.Order.{IsSort, IsKindOf};
ghost use Rattle.mw_poset.specs.SortOrder.{order_of};
ghost use Rattle.mw_carry.specs.Profiles.{Pairwise, HasProfile, IsProfiled};
ghost use Rattle.mw_carry.specs.Tables.{FindSorts, FindOperators, IsFound, seen_profile};

use indexmap::IndexMap;
use mw_poset::Poset;
use mw_term::{KindId, Name, OpId, Operator, Signature, SortId, number_at};
use std::alloc::{AllocError, Global};
use std::marker::Model;

/// A name with kinds, each told by its least sort.
#[derive(PartialEq, Eq, Hash, Drop)]
pub struct Profile {
    pub spelling: Vec<u8>,
    pub args: Vec<KindId>,
    pub result: KindId,
}

/// The kinds of sorts.
fn kinds_of(alloc: Global, order: &Poset, sorts: &[SortId]) -> Result<Vec<KindId>, AllocError>
    requires { (S : ℕ) → Member S sorts.now → IsSort order.now.sorts S }
    ensures { IfOk result (λ kinds. Pairwise (IsKindOf order.now.pairs) sorts.now kinds.items) }
{
    let mut kinds = Vec::with_capacity(alloc, sorts.len())?;
    for sort in sorts {
        kinds.push(order.kind_of(*sort))?;
    }
    Ok(kinds)
}

/// The profile of an operator.
fn profile_of(alloc: Global, order: &Poset, operator: &Operator) -> Result<Profile, AllocError>
    requires args { (S : ℕ) → Member S operator.now.args → IsSort order.now.sorts S }
    requires value { IsSort order.now.sorts operator.now.result }
    ensures { IfOk result (λ p. HasProfile order.now.pairs operator.now (seen_profile p)) }
{
    Ok(Profile {
        spelling: operator.spelling.as_slice().to_vec(alloc)?,
        args: kinds_of(alloc, order, operator.args.as_slice())?,
        result: order.kind_of(operator.result),
    })
}

/// The numbers of a signature's sorts, by their names. Of two sorts with one name the last one counts.
fn sort_numbers(
    alloc: Global,
    signature: &Signature,
) -> Result<IndexMap<Vec<u8>, SortId>, AllocError>
    ensures { IfOk result (λ t. FindSorts signature.now (length signature.now.sorts) t.entries) }
{
    let mut numbers = IndexMap::new(alloc);
    for (index, name) in signature.sorts.as_slice().iter().enumerate() {
        let name = name.as_slice().to_vec(alloc)?;
        numbers.insert(name, number_at(index)?)?;
    }
    Ok(numbers)
}

/// The numbers of a signature's operators, by their profiles. Of two operators with one profile the last one counts.
fn operator_numbers(
    alloc: Global,
    signature: &Signature,
    order: &Poset,
) -> Result<IndexMap<Profile, OpId>, AllocError>
    requires numbers { HasItsSorts signature.now }
    requires order { order.now ≡ order_of signature.now }
    ensures { IfOk result (λ t. FindOperators signature.now (length signature.now.operators) t.entries) }
{
    let mut numbers = IndexMap::new(alloc);
    for (index, operator) in signature.operators.as_slice().iter().enumerate() {
        let profile = profile_of(alloc, order, operator)?;
        numbers.insert(profile, number_at(index)?)?;
    }
    Ok(numbers)
}

/// A signature whose sorts are found by name, and its operators by name and kinds. It is seen as the signature.
#[derive(Drop)]
pub struct Target<'c> {
    signature: &'c Signature,
    order: &'c Poset,
    sorts: IndexMap<Vec<u8>, SortId>,
    operators: IndexMap<Profile, OpId>,
}

impl<'c> Model for Target<'c> {
    ghost use Rattle.mw_logic.specs.Signature.{Signature as SignatureOf};
    ghost use Rattle.mw_carry.specs.Tables.{IsTarget};

    ghost Value = { SignatureOf };

    ghost view = { λ t. t.signature.now };

    ghost invariant = { λ t. IsTarget t.signature.now t.order.now t.sorts.entries t.operators.entries };
}

impl<'c> Target<'c> {
    /// A signature with the order of its sorts.
    pub fn of(
        alloc: Global,
        signature: &'c Signature,
        order: &'c Poset,
    ) -> Result<Box<Target<'c>>, AllocError>
        requires numbers { HasItsSorts signature.now }
        requires order { order.now ≡ order_of signature.now }
        ensures { IfOk result (λ t. t.value ≡ signature.now) }
    {
        let sorts = sort_numbers(alloc, signature)?;
        let operators = operator_numbers(alloc, signature, order)?;
        let target = Target {
            signature,
            order,
            sorts,
            operators,
        };
        Ok(Box::new(alloc, target)?)
    }

    /// A sort of this name.
    pub fn sort(&self, name: &[u8]) -> Option<SortId>
        ensures { IsFound (length self.now.sorts) (λ S. IsSortNamed self.now S name.now) result }
    {
        self.sorts.get(name).copied()
    }

    /// An operator of this profile.
    pub fn operator(&self, profile: &Profile) -> Option<OpId>
        ensures { IsFound (length self.now.operators) (IsProfiled self.now (seen_profile profile.now)) result }
    {
        self.operators.get(profile).copied()
    }

    /// The kind of a sort, told by its least sort.
    pub fn kind_of(&self, sort: SortId) -> KindId
        requires { IsSortOf self.now sort }
        ensures { IsKindOf self.now.pairs sort result }
    {
        self.order.kind_of(sort)
    }
}
