// Terms that share their parts.
ghost use Rattle.std.specs.Prelude.{◌≡◌, ◌+◌, ◌++◌, ◌-◌, ◌<◌, ◌≤◌, ◌^◌, min};
ghost use Rattle.std.specs.Prelude.{List, [], take, drop, length, option_to_list, IfOk, IfNone, OnSome};
ghost use Rattle.mw_logic.specs.Term.{RawTerm, numeral, quoted, variable, apply as applied, join, nil, cons};
ghost use Rattle.mw_logic.specs.Terms.{args_of, terms_of, front, skip};
ghost use Rattle.mw_logic.specs.NormalForm.{height};
ghost use Rattle.mw_term.specs.OperatorSets.{operators_in, operators_in_all};
ghost use Rattle.mw_term.specs.Facts.{facts_of, facts_of_all};
ghost use Rattle.mw_term.specs.Hashes.{hash_above as hash_over, hash_of, hash_sum as sum_of};
ghost use Rattle.mw_term.specs.Shapes.{shaped, shown, viewed};
ghost use Rattle.mw_term.specs.Sections.{IsKept, IsSection, IsTold, ShowsSection};

use crate::facts::Facts;
use crate::hash::{hash_above, hash_of_bytes, hash_sum, with_first};
use crate::numeral::Numeral;
use crate::shared::{LONG, Shared};
use crate::{Name, OpId, Operators, VarId};
use std::alloc::{AllocError, Global};
use std::marker::Model;
use std::slice;
use std::sync::Arc;

/// A term in canonical form, ground or not: the arguments of an associative operator are flattened, those of a
/// commutative one ascend. Its parts are shared, so a copy is one count, and it may go to another thread. Its
/// depth is kept, and which operators it has.
#[derive(Drop)]
#[cycle(term)]
pub struct Term {
    node: Arc<Node>,
}

// What stands on top, which remainders the operators' numbers have by 32, and the term's hash. With its count a node
// takes 40 bytes.
#[derive(Drop)]
#[cycle(term)]
struct Node {
    remainders: u32,
    hash: u32,
    shape: Shape,
}

// What stands on top of a term, as its node keeps it: up to two arguments inside, a few more in a list of its own, and
// of a long list, which other nodes may share, the terms between two places. First stand the largest number of an
// operator in the term and its depth, which take the room that is left beside the tag, and stand at one place in all
// shapes, so that they are read without a look at the tag.
#[derive(Drop)]
#[cycle(term)]
enum Shape {
    Nat(u8, u16, Numeral),
    Qid(u8, u16, Box<Name>),
    Var(u8, u16, Box<VarId>),
    Constant(u8, u16, OpId),
    One(u8, u16, OpId, Term),
    Two(u8, u16, OpId, [Term; 2]),
    Many(u8, u16, OpId, Box<Vec<Term>>),
    Section(u8, u16, OpId, Arc<Shared>, u32, u32),
}

/// What stands on top of a term.
#[derive(Clone, Copy)]
pub enum View<'t> {
    /// A numeral.
    Nat(u128),
    /// A quoted identifier, by its bytes, the quote among them.
    Qid(&'t Name),
    /// A variable.
    Var(&'t VarId),
    /// An operator on its arguments.
    Op(OpId, &'t [Term]),
}

impl Model for Term {
    ghost use Rattle.std.specs.Prelude.{◌≡◌, ◌*◌};
    ghost use Rattle.mw_logic.specs.Term.{RawTerm};
    ghost use Rattle.mw_logic.specs.TermCode.{coded_term};
    ghost use Rattle.mw_term.specs.Weights.{weight};

    ghost Value = { RawTerm };

    ghost coded = { coded_term };

    ghost use Rattle.mw_term.specs.Shapes.{shaped};
    ghost use Rattle.mw_term.specs.Sections.{IsKept};

    ghost view = { λ t. shaped t.node.value.shape };

    ghost invariant = { λ t. IsKept t.node.value.remainders t.node.value.hash t.node.value.shape };

    ghost size = { λ t. 2 * weight t };

    ghost use Rattle.std.proofs.Common.{arith};
    ghost use Rattle.mw_term.specs.TermFalls.{shape_falls};

    ghost size_decreases = { λ a h. Prim.omega (arith, shape_falls a.node.value.shape h.2) };
}

#[inline(always)]
fn made(alloc: Global, remainders: u32, hash: u32, shape: Shape) -> Result<Term, AllocError>
    requires { IsKept remainders hash shape }
    ensures { IfOk result (λ t. t ≡ shaped shape) }
{
    let node = Node {
        remainders,
        hash,
        shape,
    };
    let node = Arc::new(alloc, node).map_err(AllocError::from)?;
    Ok(Term { node })
}

#[inline(always)]
pub(crate) fn facts_in(args: &[Term]) -> Facts
    ensures { result ≡ facts_of_all (terms_of args.now) }
{
    let mut all = Facts::of_nothing();
    for term in args {
        all = all.joined(term.facts());
    }
    all
}

/// The operator on a list of arguments, which it keeps. A long one is a list that other nodes may share.
#[inline(never)]
fn many(alloc: Global, operator: OpId, args: Vec<Term>) -> Result<Term, AllocError>
    ensures { IfOk result (λ t. t ≡ applied operator (terms_of args.items)) }
{
    let count = args.len();
    if count >= LONG && count <= u32::MAX as usize {
        let list = Shared::of(alloc, args)?;
        let term = all_over(alloc, operator, list)?;
        return Ok(term);
    }
    let term = few(alloc, operator, args)?;
    Ok(term)
}

/// The operator on a list of arguments that no other node shares.
fn few(alloc: Global, operator: OpId, args: Vec<Term>) -> Result<Term, AllocError>
    ensures { IfOk result (λ t. t ≡ applied operator (terms_of args.items)) }
{
    let Facts {
        remainders,
        last,
        depth,
    } = facts_in(args.as_slice()).under(operator, args.len());
    let hash = hash_above(operator, hash_sum(args.as_slice()));
    let list = Box::new(alloc, args).map_err(AllocError::from)?;
    let shape = Shape::Many(last, depth, operator, list);
    let term = made(alloc, remainders, hash, shape)?;
    Ok(term)
}

/// The operator on no arguments.
#[inline(always)]
fn over_none(alloc: Global, operator: OpId) -> Result<Term, AllocError>
    ensures { IfOk result (λ t. t ≡ applied operator nil) }
{
    let Facts {
        remainders,
        last,
        depth,
    } = Facts::of_nothing().under(operator, 0);
    let hash = hash_above(operator, 0);
    made(
        alloc,
        remainders,
        hash,
        Shape::Constant(last, depth, operator),
    )
}

/// The operator on one argument.
#[inline(always)]
fn over_one(alloc: Global, operator: OpId, only: Term) -> Result<Term, AllocError>
    ensures { IfOk result (λ t. t ≡ applied operator (cons only nil)) }
{
    let Facts {
        remainders,
        last,
        depth,
    } = only.facts().under(operator, 1);
    let hash = hash_above(operator, with_first(&only, 0));
    made(
        alloc,
        remainders,
        hash,
        Shape::One(last, depth, operator, only),
    )
}

/// The operator on two arguments.
#[inline(always)]
fn over_two(alloc: Global, operator: OpId, first: Term, second: Term) -> Result<Term, AllocError>
    ensures { IfOk result (λ t. t ≡ applied operator (cons first (cons second nil))) }
{
    let Facts {
        remainders,
        last,
        depth,
    } = first.facts().joined(second.facts()).under(operator, 2);
    let hash = hash_above(operator, with_first(&first, with_first(&second, 0)));
    let shape = Shape::Two(last, depth, operator, [first, second]);
    made(alloc, remainders, hash, shape)
}

/// The operator on the terms of a list between two places.
fn over(
    alloc: Global,
    operator: OpId,
    list: Arc<Shared>,
    from: u32,
    end: u32,
) -> Result<Term, AllocError>
    requires { IsSection list.value from end }
    ensures { IfOk result (λ t. t ≡ applied operator (terms_of (shown list.value from end))) }
{
    let told = list.told_from(from as usize).facts;
    let Facts {
        remainders,
        last,
        depth,
    } = told.under(operator, (end - from) as usize);
    let hash = hash_above(operator, list.sum_between(from as usize, end as usize));
    let shape = Shape::Section(last, depth, operator, list, from, end);
    let term = made(alloc, remainders, hash, shape)?;
    Ok(term)
}

/// The operator on all terms of a list.
fn whole(alloc: Global, operator: OpId, list: Shared) -> Result<Term, AllocError>
    requires { IsTold list }
    ensures { IfOk result (λ t. t ≡ applied operator (terms_of list.terms.items)) }
{
    let count = list.terms.len();
    if count < LONG || count > u32::MAX as usize {
        let Shared { terms, .. } = list;
        let term = Term::apply(alloc, operator, terms)?;
        return Ok(term);
    }
    let term = all_over(alloc, operator, list)?;
    Ok(term)
}

/// The operator on all terms of a list that the node shares.
fn all_over(alloc: Global, operator: OpId, list: Shared) -> Result<Term, AllocError>
    requires told { IsTold list }
    requires size { length list.terms.items < 2 ^ 32 }
    ensures { IfOk result (λ t. t ≡ applied operator (terms_of list.terms.items)) }
{
    let count = list.terms.len();
    let list = Arc::new(alloc, list).map_err(AllocError::from)?;
    let term = over(alloc, operator, list, 0, count as u32)?;
    Ok(term)
}

/// The arguments of a term, as a list with what they tell.
fn listed(alloc: Global, term: Term) -> Result<Shared, AllocError>
    ensures terms { IfOk result (λ s. terms_of s.terms.items ≡ args_of term) }
    ensures told { IfOk result (λ s. IsTold s) }
{
    let Term { node } = term;
    match Arc::try_unwrap(node) {
        Ok(node) => {
            let Node { shape, .. } = node;
            let list = listed_shape(alloc, shape)?;
            Ok(list)
        }
        Err(shared) => {
            let args = copied(alloc, &shared.shape)?;
            let list = Shared::of(alloc, args)?;
            Ok(list)
        }
    }
}

fn listed_shape(alloc: Global, shape: Shape) -> Result<Shared, AllocError>
    requires { ShowsSection shape }
    ensures terms { IfOk result (λ s. terms_of s.terms.items ≡ args_of (shaped shape)) }
    ensures told { IfOk result (λ s. IsTold s) }
{
    match shape {
        Shape::Section(_, _, _, list, from, end) => {
            let list = sole(alloc, list, from as usize, end as usize)?;
            Ok(list)
        }
        shape => {
            let args = taken(alloc, shape)?;
            let list = Shared::of(alloc, args)?;
            Ok(list)
        }
    }
}

/// The terms of a list between two places, as a list of their own: the list itself, where nobody else holds it and they
/// are all of it.
fn sole(alloc: Global, list: Arc<Shared>, from: usize, end: usize) -> Result<Shared, AllocError>
    requires told { IsTold list.value }
    requires ordered { from ≤ end }
    requires inside { end ≤ length list.value.terms.items }
    ensures terms { IfOk result (λ s. s.terms.items ≡ shown list.value from end) }
    ensures told { IfOk result (λ s. IsTold s) }
{
    match Arc::try_unwrap(list) {
        Ok(list) => {
            if from == 0 && end == list.terms.len() {
                return Ok(list);
            }
            let args = list.into_between(from, end)?;
            let list = Shared::of(alloc, args)?;
            Ok(list)
        }
        Err(shared) => {
            let args = all_copied(alloc, shared.between(from, end))?;
            let list = Shared::of(alloc, args)?;
            Ok(list)
        }
    }
}

/// The operator on terms of a list: of those between two places so many from one on, as far as there are.
fn cut(
    alloc: Global,
    operator: OpId,
    list: &Arc<Shared>,
    first: usize,
    last: usize,
    from: usize,
    count: usize,
) -> Result<Term, AllocError>
    requires told { IsTold list.now.value }
    requires ordered { first ≤ last }
    requires inside { last ≤ length list.now.value.terms.items }
    ensures { let ts = terms_of (shown list.now.value first last) in
        IfOk result (λ t. t ≡ applied operator (front count (skip from ts))) }
{
    let start = from.min(last - first);
    let size = count.min(last - first - start);
    let from = first + start;
    let end = from + size;
    if end <= u32::MAX as usize && list.bears(from, end) {
        let list = Arc::try_clone(list)?;
        let term = over(alloc, operator, list, from as u32, end as u32)?;
        return Ok(term);
    }
    let args = all_copied(alloc, list.between(from, end))?;
    let term = Term::apply(alloc, operator, args)?;
    Ok(term)
}

/// So many terms from a place on, as far as there are.
fn part(terms: &[Term], from: usize, count: usize) -> &[Term]
    ensures { terms_of result.now ≡ front count (skip from (terms_of terms.now)) }
{
    let start = from.min(terms.len());
    let rest = &terms[start..];
    let end = count.min(rest.len());
    &rest[..end]
}

/// The terms from a place on. Beyond the end there are none.
pub fn behind(terms: &[Term], from: usize) -> &[Term]
    ensures { result.now ≡ drop from terms.now }
{
    if from < terms.len() {
        &terms[from..]
    } else {
        &[]
    }
}

/// Takes the last term out, where it stands from a place on.
fn pop_behind(terms: &mut Vec<Term>, from: usize) -> Option<Term>
    ensures items { terms.old.items ≡ terms.new.items ++ option_to_list result }
    ensures own { drop from terms.old.items ≡ drop from terms.new.items ++ option_to_list result }
    ensures none { IfNone result (length terms.old.items ≤ from) }
    ensures some { OnSome result (from ≤ length terms.new.items) }
{
    if terms.len() > from {
        terms.pop()
    } else {
        None
    }
}

impl Term {
    /// A numeral.
    pub fn numeral(alloc: Global, number: u128) -> Result<Term, AllocError>
        ensures { IfOk result (λ t. t ≡ numeral number) }
    {
        let hash = (number % (1 << 32)) as u32;
        let Facts {
            remainders,
            last,
            depth,
        } = Facts::of_leaf();
        let shape = Shape::Nat(last, depth, Numeral::of(number));
        made(alloc, remainders, hash, shape)
    }

    /// A quoted identifier, by its bytes, the quote among them.
    pub fn quoted(alloc: Global, name: Name) -> Result<Term, AllocError>
        ensures { IfOk result (λ t. t ≡ quoted name) }
    {
        let hash = hash_of_bytes(name.as_slice());
        let name = Box::new(alloc, name).map_err(AllocError::from)?;
        let Facts {
            remainders,
            last,
            depth,
        } = Facts::of_leaf();
        let shape = Shape::Qid(last, depth, name);
        made(alloc, remainders, hash, shape)
    }

    /// A variable.
    pub fn variable(alloc: Global, name: VarId) -> Result<Term, AllocError>
        ensures { IfOk result (λ t. t ≡ variable name) }
    {
        let hash = hash_of_bytes(name.name.as_slice()).wrapping_add(name.sort);
        let name = Box::new(alloc, name).map_err(AllocError::from)?;
        let Facts {
            remainders,
            last,
            depth,
        } = Facts::of_leaf();
        let shape = Shape::Var(last, depth, name);
        made(alloc, remainders, hash, shape)
    }

    /// The operator on these arguments. One or two of them take no allocation of their own.
    pub fn apply(alloc: Global, operator: OpId, args: Vec<Term>) -> Result<Term, AllocError>
        ensures { IfOk result (λ t. t ≡ applied operator (terms_of args.items)) }
    {
        let mut args = args;
        if args.len() > 2 {
            let term = many(alloc, operator, args)?;
            return Ok(term);
        }
        let term = Term::apply_behind(alloc, operator, &mut args, 0)?;
        Ok(term)
    }

    /// The operator on the terms of a list that stand from a place on, which are taken out of it. Up to two take no
    /// list of their own, more take one of exactly that many. For want of memory the list may have lost them.
    #[inline(never)]
    pub fn apply_behind(
        alloc: Global,
        operator: OpId,
        terms: &mut Vec<Term>,
        from: usize,
    ) -> Result<Term, AllocError>
        ensures is { IfOk result (λ t. t ≡ applied operator (terms_of (drop from terms.old.items))) }
        ensures taken { IfOk result (λ _. terms.new.items ≡ take from terms.old.items) }
    {
        if terms.len().saturating_sub(from) > 2 {
            let args = terms.split_off(from)?;
            let term = many(alloc, operator, args)?;
            return Ok(term);
        }
        match pop_behind(terms, from) {
            None => over_none(alloc, operator),
            Some(second) => match pop_behind(terms, from) {
                None => over_one(alloc, operator, second),
                Some(first) => over_two(alloc, operator, first, second),
            },
        }
    }

    /// An operator on arguments of this term: so many from a place on, as far as there are. Where they are a long list
    /// or the most of one, and tell as much as the whole, the new node shares it; else they are copied.
    pub fn section(
        &self,
        alloc: Global,
        operator: OpId,
        from: usize,
        count: usize,
    ) -> Result<Term, AllocError>
        ensures { IfOk result (λ t. t ≡ applied operator (front count (skip from (args_of self.now)))) }
    {
        if let Shape::Section(_, _, _, list, first, end) = &self.node.shape {
            let term = cut(
                alloc,
                operator,
                list,
                *first as usize,
                *end as usize,
                from,
                count,
            )?;
            return Ok(term);
        }
        let args = all_copied(alloc, part(self.arguments(), from, count))?;
        let term = Term::apply(alloc, operator, args)?;
        Ok(term)
    }

    /// The operator on the terms of a list from a place on, which are taken out of it, and behind them on the arguments of
    /// another term. A long list of these that nobody else holds is no walk: it takes the others at its front.
    pub fn apply_onto(
        alloc: Global,
        operator: OpId,
        terms: &mut Vec<Term>,
        from: usize,
        last: Term,
    ) -> Result<Term, AllocError>
        requires { from ≤ length terms.old.items }
        ensures is { IfOk result (λ t. t ≡ applied operator (join (terms_of (drop from terms.old.items)) (args_of last))) }
        ensures taken { IfOk result (λ _. terms.new.items ≡ take from terms.old.items) }
    {
        let front = terms.split_off(from)?;
        let list = listed(alloc, last)?;
        let list = list.behind(front)?;
        let term = whole(alloc, operator, list)?;
        Ok(term)
    }

    /// The operator on the arguments of a term, and behind them on the terms of a list from a place on, which are taken
    /// out of it. A long list of arguments that nobody else holds takes the others at its end.
    pub fn apply_after(
        alloc: Global,
        operator: OpId,
        first: Term,
        terms: &mut Vec<Term>,
        from: usize,
    ) -> Result<Term, AllocError>
        requires { from ≤ length terms.old.items }
        ensures is { IfOk result (λ t. t ≡ applied operator (join (args_of first) (terms_of (drop from terms.old.items)))) }
        ensures taken { IfOk result (λ _. terms.new.items ≡ take from terms.old.items) }
    {
        let back = terms.split_off(from)?;
        let list = listed(alloc, first)?;
        let list = list.before(alloc, back)?;
        let term = whole(alloc, operator, list)?;
        Ok(term)
    }

    /// The arguments of the operator on top, none of a term without one.
    pub fn arguments(&self) -> &[Term]
        ensures { terms_of result.now ≡ args_of self.now }
    {
        match self.view() {
            View::Op(_, args) => args,
            _ => &[],
        }
    }

    /// What stands on top. It takes no memory.
    pub fn view(&self) -> View<'_>
        ensures { self.now ≡ viewed result }
    {
        match &self.node.shape {
            Shape::Nat(_, _, number) => View::Nat(number.get()),
            Shape::Qid(_, _, name) => View::Qid(&**name),
            Shape::Var(_, _, variable) => View::Var(&**variable),
            Shape::Constant(_, _, operator) => View::Op(*operator, &[]),
            Shape::One(_, _, operator, only) => View::Op(*operator, slice::from_ref(only)),
            Shape::Two(_, _, operator, both) => View::Op(*operator, both.as_slice()),
            Shape::Many(_, _, operator, args) => View::Op(*operator, args.as_slice()),
            Shape::Section(_, _, operator, list, from, end) => {
                View::Op(*operator, list.between(*from as usize, *end as usize))
            }
        }
    }

    #[inline(always)]
    pub(crate) fn facts(&self) -> Facts
        ensures { result ≡ facts_of self.now }
    {
        match &self.node.shape {
            Shape::Nat(last, depth, _)
            | Shape::Qid(last, depth, _)
            | Shape::Var(last, depth, _)
            | Shape::Constant(last, depth, _)
            | Shape::One(last, depth, _, _)
            | Shape::Two(last, depth, _, _)
            | Shape::Many(last, depth, _, _)
            | Shape::Section(last, depth, _, _, _, _) => Facts {
                remainders: self.node.remainders,
                last: *last,
                depth: *depth,
            },
        }
    }

    /// A number that equal terms share (`hash_of`, specs/Hashes). It is kept, so this is no walk.
    pub fn hash(&self) -> u32
        ensures { result ≡ hash_of self.now }
    {
        self.node.hash
    }

    /// The operators that stand in it. They are kept, so this is no walk.
    pub fn operators(&self) -> Operators
        ensures { result ≡ operators_in self.now }
    {
        let Facts {
            remainders,
            last,
            ..
        } = self.facts();
        Operators { remainders, last }
    }

    /// The operators that stand in the arguments of the one on top. For a long list this is no walk.
    pub fn operators_inside(&self) -> Operators
        ensures { result ≡ operators_in_all (args_of self.now) }
    {
        let Facts {
            remainders,
            last,
            ..
        } = match &self.node.shape {
            Shape::Section(_, _, _, list, from, _) => list.told_from(*from as usize).facts,
            _ => facts_in(self.arguments()),
        };
        Operators { remainders, last }
    }

    /// The arguments of the operator on top, none of a term without one. They are taken out of a node that no other
    /// term shares, and copied out of others.
    pub fn into_args(self, alloc: Global) -> Result<Vec<Term>, AllocError>
        ensures { IfOk result (λ ts. terms_of ts.items ≡ args_of self) }
    {
        let Term { node } = self;
        match Arc::try_unwrap(node) {
            Ok(node) => {
                let Node { shape, .. } = node;
                taken(alloc, shape)
            }
            Err(shared) => copied(alloc, &shared.shape),
        }
    }
}

/// How deep a term is: a constant, a numeral, a quoted identifier and a variable have 1, an operator one more
/// than its deepest argument. Where that is more than 65,535, it is 65,535. It is kept, so this is no walk.
pub fn depth(term: &Term) -> u16
    ensures { result ≡ min (height term.now) (2 ^ 16 - 1) }
{
    term.facts().depth
}

/// The same term again, by one count. It fails only where 2^63 copies are held.
pub fn copy(term: &Term) -> Result<Term, AllocError>
    ensures { IfOk result (λ t. t ≡ term.now) }
{
    let node = Arc::try_clone(&term.node)?;
    Ok(Term { node })
}

/// The same terms again, one count for each.
fn all_copied(alloc: Global, terms: &[Term]) -> Result<Vec<Term>, AllocError>
    ensures { IfOk result (λ ts. ts.items ≡ terms.now) }
{
    let mut made = Vec::with_capacity(alloc, terms.len())?;
    for term in terms {
        made.push(copy(term)?)?;
    }
    Ok(made)
}

fn copied(alloc: Global, shape: &Shape) -> Result<Vec<Term>, AllocError>
    requires { ShowsSection shape.now }
    ensures { IfOk result (λ ts. terms_of ts.items ≡ args_of (shaped shape.now)) }
{
    match shape {
        Shape::One(_, _, _, only) => all_copied(alloc, slice::from_ref(only)),
        Shape::Two(_, _, _, both) => all_copied(alloc, both.as_slice()),
        Shape::Many(_, _, _, args) => all_copied(alloc, args.as_slice()),
        Shape::Section(_, _, _, list, from, end) => {
            all_copied(alloc, list.between(*from as usize, *end as usize))
        }
        _ => Ok(Vec::new(alloc)),
    }
}

fn taken(alloc: Global, shape: Shape) -> Result<Vec<Term>, AllocError>
    requires { ShowsSection shape }
    ensures { IfOk result (λ ts. terms_of ts.items ≡ args_of (shaped shape)) }
{
    match shape {
        Shape::One(_, _, _, only) => Ok(vec![in alloc; only]?),
        Shape::Two(_, _, _, both) => Ok(Vec::from_array(alloc, both)?),
        Shape::Many(_, _, _, args) => Ok(Box::into_inner(args)),
        Shape::Section(_, _, _, list, from, end) => match Arc::try_unwrap(list) {
            Ok(list) => list.into_between(from as usize, end as usize),
            Err(shared) => all_copied(alloc, shared.between(from as usize, end as usize)),
        },
        _ => Ok(Vec::new(alloc)),
    }
}
