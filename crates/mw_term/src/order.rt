// The order of terms.
ghost use Rattle.std.specs.Prelude.{◌≡◌, ◌↔◌, ◌+◌, List, IsTrue};
ghost use Rattle.mw_logic.specs.Term.{RawTerm, numeral, quoted, variable, apply as applied};
ghost use Rattle.mw_logic.specs.Terms.{terms_of};
ghost use Rattle.mw_logic.specs.TermOrder.{compare_terms, order_terms, order_lists, shape_number};
ghost use Rattle.mw_logic.specs.NormalForm.{height, highest};
ghost use Rattle.mw_term.specs.Shapes.{viewed};

use crate::{OpId, Term, View};
use std::cmp::Ordering;

/// The order of terms: numerals by value, then quoted identifiers by bytes, then operators by number, by how many
/// arguments they have, and by these from the left, then variables by name and sort. It stops at the first difference.
pub fn compare(a: &Term, b: &Term) -> Ordering
    ensures { result ≡ compare_terms a.now b.now }
{
    ordered(a, b)
}

/// Whether two terms are equal. Where their hashes differ, this is no walk.
pub fn same(a: &Term, b: &Term) -> bool
    ensures { IsTrue result ↔ (a.now ≡ b.now) }
{
    if a.hash() != b.hash() {
        return false;
    }
    compare(a, b).is_eq()
}

#[cycle(ordered)]
fn ordered(a: &Term, b: &Term) -> Ordering
    ensures { result ≡ order_terms a.now b.now }
{
    match (a.view(), b.view()) {
        (View::Nat(m), View::Nat(n)) => m.cmp(&n),
        (View::Qid(p), View::Qid(q)) => p.as_slice().cmp(q.as_slice()),
        (View::Var(x), View::Var(y)) => {
            let names = x.name.as_slice().cmp(y.name.as_slice());
            names.then(x.sort.cmp(&y.sort))
        }
        (View::Op(f, ts), View::Op(g, us)) => applied_ordered(f, ts, g, us),
        (s, t) => rank(&s).cmp(&rank(&t)),
    }
}

#[cycle(ordered)]
fn applied_ordered(f: OpId, a: &[Term], g: OpId, b: &[Term]) -> Ordering
    ensures { result ≡ order_terms (applied f (terms_of a.now)) (applied g (terms_of b.now)) }
{
    let tops = f.cmp(&g).then(a.len().cmp(&b.len()));
    if tops.is_ne() {
        return tops;
    }
    all_ordered(a, b)
}

/// The first difference of two lists decides, as far as both go.
#[cycle(ordered)]
fn all_ordered(a: &[Term], b: &[Term]) -> Ordering
    ensures { result ≡ order_lists (terms_of a.now) (terms_of b.now) }
{
    let n = a.len().min(b.len());
    for i in 0..n {
        let order = ordered(&a[i], &b[i]);
        if order.is_ne() {
            return order;
        }
    }
    Ordering::Equal
}

fn rank(top: &View<'_>) -> u8
    ensures { result ≡ shape_number (viewed top.now) }
{
    match top {
        View::Nat(_) => 0,
        View::Qid(_) => 1,
        View::Op(_, _) => 2,
        View::Var(_) => 3,
    }
}
