// Terms, by their numbered prefix forms.
ghost use Rattle.std.specs.Prelude.{◌≡◌, IfOk, IfErr};
ghost use Rattle.mw_logic.specs.Terms.{terms_of};
ghost use Rattle.mw_term.specs.Raws.{raw_term, raw_terms};
ghost use Rattle.mw_proofread.specs.TokenTexts.{token_texts, form_tokens};
ghost use Rattle.mw_proofread.specs.Reading.{IsWritten};
ghost use Rattle.mw_proofread.specs.Parts.{NoForm};
ghost use Rattle.mw_proofread.specs.Same as same;
ghost use Rattle.mw_proofread.specs.Faults.{OnOutside};
ghost use Rattle.mw_prefix.specs.Leaves.{AreLeafKinds};

use crate::fault::Fault;
use crate::reader::Reader;
use mw_canon::{CanonError, canon};
use mw_lex::Token;
use mw_prefix::{PrefixError, read_prefix_with};
use mw_term::{Raw, Term, View};
use std::alloc::Global;

/// Whether a term as it is written is that one, without variables.
#[cycle(same)]
fn is_same(raw: &Raw, term: &Term) -> bool
    ensures { result ≡ same.same_term (raw_term raw.now) term.now }
{
    match (raw, term.view()) {
        (Raw::Nat(m), View::Nat(n)) => *m == n,
        (Raw::Qid(p), View::Qid(q)) => p.as_slice() == q.as_slice(),
        (Raw::Op(f, raws), View::Op(g, terms)) => *f == g && are_same(raws.as_slice(), terms),
        _ => false,
    }
}

#[cycle(same)]
fn are_same(raws: &[Raw], terms: &[Term]) -> bool
    ensures { result ≡ same.same_terms (raw_terms raws.now) (terms_of terms.now) }
{
    let mut left = raws;
    let mut right = terms;
    while let [raw, raws @ ..] = left {
        let [term, terms @ ..] = right else {
            return false;
        };
        if !is_same(raw, term) {
            return false;
        }
        left = raws;
        right = terms;
    }
    right.is_empty()
}

/// The term whose form the tokens are.
pub fn form(alloc: Global, reader: &Reader<'_>, tokens: &[Token]) -> Result<Term, Fault>
    requires { AreLeafKinds reader.now.ctx.now.signature reader.now.kinds }
    ensures is { IfOk result (λ t. form_tokens reader.now.ctx.now.signature t ≡ token_texts tokens.now) }
    ensures written { IfOk result (IsWritten reader.now.ctx.now.signature) }
    ensures outside { IfErr result (OnOutside (NoForm reader.now.ctx.now.signature (token_texts tokens.now))) }
{
    let ctx = reader.ctx;
    ctx.shows();
    let raw = match read_prefix_with(alloc, ctx.facts(), ctx.order(), reader.kinds, tokens) {
        Ok(raw) => raw,
        Err(PrefixError::NoParse) => return Err(Fault::Outside),
        Err(_) => return Err(Fault::Memory),
    };
    let term = match canon(alloc, ctx.facts(), &raw) {
        Ok(term) => term,
        Err(CanonError::Deep) => return Err(Fault::Outside),
        Err(CanonError::Nat) => return Err(Fault::Outside),
        Err(CanonError::Memory) => return Err(Fault::Memory),
    };
    if is_same(&raw, &term) {
        Ok(term)
    } else {
        Err(Fault::Outside)
    }
}
