// Rows at two arguments at a time, as long as there are more, without the terms between.
ghost use Rattle.std.specs.Prelude.{◌≡◌, ◌+◌, ◌<◌, ◌≤◌, ◌-◌, ◌^◌, ◌++◌, ◌∷◌, [], ℕ, List, None, drop, length, true, false};
ghost use Rattle.std.specs.Prelude.{IsTrue, IsFalse, IsNone, IfOk, IfSome, OnOk, MatchOption};
ghost use Rattle.mw_logic.specs.Term.{RawTerm, RawTerms, numeral, apply as applied_to, nil, cons, join};
ghost use Rattle.mw_logic.specs.Terms.{terms_of};
ghost use Rattle.mw_logic.specs.TermOrder.{stands_after, sorted_terms};
ghost use Rattle.mw_logic.specs.NormalForm.{applied_in};
ghost use Rattle.mw_logic.specs.Signature.{Signature};
ghost use Rattle.mw_logic.specs.Judgements.{admitted_judgements};
ghost use Rattle.mw_logic.proofs.SortedLists.{Climbs};
ghost use Rattle.mw_deduction.specs.Tops.{NothingAtTops};
ghost use Rattle.mw_solving.specs.Values.{IsValue};
ghost use Rattle.mw_index.specs.Index.{IsIndexOf};
ghost use Rattle.mw_frames.specs.State.{Run, Data, IsRun};
ghost use Rattle.mw_frames.specs.Machines.{data_of};
ghost use Rattle.mw_frames.specs.Steps.{IsAsked};
ghost use Rattle.mw_frames.specs.Redex.{IsRowOf};
ghost use Rattle.mw_frames.specs.Pairs.{IsJoining};
ghost use Rattle.mw_reduce.specs.Pairs.{IsFirst, AreFirst, IsJoined};

use mw_builtin::Met;
use mw_canon::{Axioms, Facts, rebuild};
use mw_frames::{Machine, meet_pair};
use mw_index::{Choices, Index, Subject};
use mw_least::Ctx;
use mw_term::{OpId, Term, View, behind, compare, copy};
use std::alloc::{AllocError, Global};

/// Where the arguments that are left begin: among those of the term, and among what was made of others.
#[derive(Clone, Copy)]
struct Left {
    own: usize,
    made: usize,
}

/// The first of the arguments that are left, and where the others begin.
#[derive(Clone, Copy)]
struct First<'t> {
    term: &'t Term,
    left: Left,
}

/// The first two of the arguments that are left, and where the others begin.
#[derive(Clone, Copy)]
struct Pair<'t> {
    first: &'t Term,
    second: &'t Term,
    left: Left,
}

/// What is made of two arguments, and where the others begin.
#[derive(Drop)]
struct Joined {
    to: Term,
    left: Left,
}

/// Whether a term doesn't come behind another.
fn is_in_order(term: &Term, other: &Term) -> bool
    ensures yes { IsTrue result → stands_after term.now other.now ≡ false }
    ensures no { IsFalse result → stands_after term.now other.now ≡ true }
{
    !compare(term, other).is_gt()
}

/// The next of the term's arguments is the first one.
fn own_first(term: &Term, left: Left) -> First<'_>
    requires { left.own < 2 ^ 64 - 1 }
    ensures { (result.term.now ≡ term.now) × (result.left.own ≡ left.own + 1) × (result.left.made ≡ left.made) }
{
    let left = Left {
        own: left.own + 1,
        made: left.made,
    };
    First { term, left }
}

/// The next of what was made is the first one.
fn made_first(term: &Term, left: Left) -> First<'_>
    requires { left.made < 2 ^ 64 - 1 }
    ensures { (result.term.now ≡ term.now) × (result.left.own ≡ left.own) × (result.left.made ≡ left.made + 1) }
{
    let left = Left {
        own: left.own,
        made: left.made + 1,
    };
    First { term, left }
}

/// The first of the arguments that are left.
fn first_of<'t>(args: &'t [Term], made: &'t [Term], left: Left) -> Option<First<'t>>
    ensures within { left.made ≤ length made.now → IfSome result (λ f. f.left.made ≤ length made.now) }
    ensures first { Climbs (terms_of (drop left.own args.now)) → Climbs (terms_of (drop left.made made.now))
        → IfSome result (λ f. IsFirst (terms_of (drop left.own args.now)) (terms_of (drop left.made made.now)) f.term.now
        (terms_of (drop f.left.own args.now)) (terms_of (drop f.left.made made.now))) }
{
    match (args.get(left.own), made.get(left.made)) {
        (Some(own), Some(other)) => {
            if is_in_order(own, other) {
                Some(own_first(own, left))
            } else {
                Some(made_first(other, left))
            }
        }
        (Some(own), None) => Some(own_first(own, left)),
        (None, Some(other)) => Some(made_first(other, left)),
        (None, None) => None,
    }
}

/// The first two of the arguments that are left, where there are more.
fn pair_of<'t>(args: &'t [Term], made: &'t [Term], left: Left) -> Option<Pair<'t>>
    ensures within { left.made ≤ length made.now → IfSome result (λ p. p.left.made ≤ length made.now) }
    ensures first { Climbs (terms_of (drop left.own args.now)) → Climbs (terms_of (drop left.made made.now))
        → IfSome result (λ p. AreFirst (terms_of (drop left.own args.now)) (terms_of (drop left.made made.now)) p.first.now p.second.now
        (terms_of (drop p.left.own args.now)) (terms_of (drop p.left.made made.now))) }
{
    let first = first_of(args, made, left)?;
    let second = first_of(args, made, first.left)?;
    if second.left.own >= args.len() && second.left.made >= made.len() {
        return None;
    }
    Some(Pair {
        first: first.term,
        second: second.term,
        left: second.left,
    })
}

/// Whether a term comes behind the last of these.
fn comes_last(made: &[Term], term: &Term) -> bool
    ensures { IsTrue result → (i : ℕ) → Climbs (terms_of (drop i made.now))
        → Climbs (join (terms_of (drop i made.now)) (cons term.now nil)) }
{
    match made.last() {
        Some(last) => is_in_order(last, term),
        None => true,
    }
}

/// Whether a term is a numeral.
fn is_numeral(term: &Term) -> bool
    ensures { IsTrue result → (n : ℕ) × (term.now ≡ numeral n) }
{
    matches!(term.view(), View::Nat(_))
}

/// What a row makes of two arguments, where that is a numeral.
fn made_of(
    alloc: Global,
    context: &Ctx,
    operator: OpId,
    first: &Term,
    second: &Term,
) -> Result<Option<Term>, AllocError>
    ensures { (K : Run) (k : ℕ) (d : Data) → IsRun K context.now.signature → K.over ≡ context.now
        → IsAsked K k d (applied_to operator (cons first.now (cons second.now nil)))
        → IfOk result (λ o. IfSome o (λ to. IsRowOf K.over K.rank (applied_to operator (cons first.now (cons second.now nil))) to
        × ((n : ℕ) × (to ≡ numeral n)))) }
{
    context.shows();
    let pair = [copy(first)?, copy(second)?];
    let facts = context.facts();
    match context.schemata().step(alloc, facts, operator, &pair)? {
        Met::Gives { take, to } => {
            if take.is_none() && is_numeral(&to) {
                return Ok(Some(to));
            }
            Ok(None)
        }
        Met::TooBig { take: _take } => Ok(None),
        Met::Nothing => Ok(None),
    }
}

/// Whether nothing applies to a number.
fn is_normal<'m>(
    alloc: Global,
    context: &'m Ctx,
    index: &'m Index,
    choices: &mut Choices<'m>,
    number: &Term,
) -> Result<bool, AllocError>
    requires { IsIndexOf context.now index.now }
    ensures { (K : Run) → IsRun K context.now.signature → K.over ≡ context.now → IsValue K.over.signature number.now
        → ((n : ℕ) × (number.now ≡ numeral n))
        → IfOk result (λ b. IsTrue b → NothingAtTops K.over (admitted_judgements K.over K.rank).Fails number.now) }
{
    choices.again();
    match choices.next(alloc, context, index, Subject::Term(number))? {
        Some(choice) => {
            choices.give_back(choice.values);
            Ok(false)
        }
        None => Ok(true),
    }
}

/// What a row makes of the first two of the arguments that are left: none where there are no more, where that isn't a
/// number to which nothing applies, or where it doesn't come behind what was made before.
fn next_joined<'m>(
    alloc: Global,
    context: &'m Ctx,
    index: &'m Index,
    choices: &mut Choices<'m>,
    operator: OpId,
    args: &[Term],
    made: &[Term],
    left: Left,
) -> Result<Option<Joined>, AllocError>
    requires { IsIndexOf context.now index.now }
    ensures within { left.made ≤ length made.now → IfOk result (λ o. IfSome o (λ j. j.left.made ≤ length made.now)) }
    ensures joined { (K : Run) (k : ℕ) (d : Data) → IsRun K context.now.signature → K.over ≡ context.now → IsJoining K.over.signature operator
        → Climbs (terms_of (drop left.own args.now)) → Climbs (terms_of (drop left.made made.now))
        → IsAsked K k d (applied_to operator (sorted_terms (join (terms_of (drop left.own args.now)) (terms_of (drop left.made made.now)))))
        → IfOk result (λ o. IfSome o (λ j. IsJoined K operator (terms_of (drop left.own args.now)) (terms_of (drop left.made made.now)) j.to
        (terms_of (drop j.left.own args.now)) (terms_of (drop j.left.made made.now)))) }
{
    let Some(pair) = pair_of(args, made, left) else {
        return Ok(None);
    };
    let Some(to) = made_of(alloc, context, operator, pair.first, pair.second)? else {
        return Ok(None);
    };
    if !comes_last(made, &to) {
        return Ok(None);
    }
    let normal = is_normal(alloc, context, index, choices, &to)?;
    if !normal {
        return Ok(None);
    }
    Ok(Some(Joined {
        to,
        left: pair.left,
    }))
}

/// Copies of terms come behind others.
fn push_all(terms: &[Term], found: &mut Vec<Term>) -> Result<(), AllocError>
    ensures { OnOk result (found.new.items ≡ found.old.items ++ terms.now) }
{
    for term in terms {
        found.push(copy(term)?)?;
    }
    Ok(())
}

/// The operator on the arguments that are left.
fn gathered(
    alloc: Global,
    facts: &Facts,
    operator: OpId,
    args: &[Term],
    made: &[Term],
    left: Left,
) -> Result<Term, AllocError>
    ensures { IfOk result (λ t. t ≡ applied_in facts.now operator (join (terms_of (drop left.own args.now)) (terms_of (drop left.made made.now)))) }
{
    let mut rest = Vec::new(alloc);
    push_all(behind(args, left.own), &mut rest)?;
    push_all(behind(made, left.made), &mut rest)?;
    let term = rebuild(alloc, facts, operator, rest)?;
    Ok(term)
}

/// Whether the operator is associative and commutative, and has no identity.
fn is_joining(facts: &Facts, operator: OpId) -> bool
    ensures { IsTrue result → IsJoining facts.now operator }
{
    matches!(
        facts.axioms(operator),
        Axioms::Associative {
            comm: true,
            identity: None,
        }
    )
}

/// Rows are met at two arguments of a term at a time, the least first, as long as there are more of them and what comes
/// is a number to which nothing applies, at most so many times: the operator on what is left then, and how many rows
/// were met. None where none was. The terms between aren't made, so a row takes the same time however many there are.
pub fn join_pairs<'m>(
    alloc: Global,
    context: &'m Ctx,
    index: &'m Index,
    machine: &mut Machine<'m>,
    choices: &mut Choices<'m>,
    term: &Term,
    limit: u64,
) -> Result<Option<(Term, u64)>, AllocError>
    requires { IsIndexOf context.now index.now }
    ensures { (K : Run) (k : ℕ) → IsRun K context.now.signature → K.over ≡ context.now → IsAsked K k (data_of K.over machine.old) term.now
        → IfOk result (λ o. MatchOption o (machine.new ≡ machine.old) (λ r. (0 < r.1) × (r.1 ≤ limit) × IsAsked K (k + r.1) (data_of K.over machine.new) r.0)) }
{
    let View::Op(operator, args) = term.view() else {
        return Ok(None);
    };
    if context.schemata().sum(operator).is_none() {
        return Ok(None);
    }
    if !is_joining(context.facts(), operator) {
        return Ok(None);
    }
    let mut made = Vec::new(alloc);
    let mut left = Left { own: 0, made: 0 };
    let mut count = 0;
    while count < limit {
        let Some(joined) = next_joined(
            alloc,
            context,
            index,
            choices,
            operator,
            args,
            made.as_slice(),
            left,
        )?
        else {
            break;
        };
        meet_pair(machine, &joined.to)?;
        left = joined.left;
        made.push(joined.to)?;
        count += 1;
    }
    if count == 0 {
        return Ok(None);
    }
    let term = gathered(
        alloc,
        context.facts(),
        operator,
        args,
        made.as_slice(),
        left,
    )?;
    Ok(Some((term, count)))
}
