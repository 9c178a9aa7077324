// Terms among other tokens, and values.
ghost use Rattle.std.specs.Prelude.{◌≡◌, ◌++◌, IfOk, IfErr};
ghost use Rattle.mw_proofread.specs.TokenTexts.{token_texts};
ghost use Rattle.mw_proofread.specs.Parts as parts;
ghost use Rattle.mw_proofread.specs.Faults.{OnOutside};
ghost use Rattle.mw_prefix.specs.Leaves.{AreLeafKinds};

use crate::fault::Fault;
use crate::forms::form;
use crate::reader::Reader;
use crate::words::{after, is_low};
use mw_lex::Token;
use mw_term::{Seq, Term};
use std::alloc::Global;

/// The tokens up to the first that stands in no form, and those from it on.
fn divided(tokens: &[Token]) -> (&[Token], &[Token])
    ensures is { token_texts tokens.now ≡ token_texts result.0.now ++ token_texts result.1.now }
    ensures low { parts.AreLow (token_texts result.0.now) }
    ensures high { parts.IsHigh (token_texts result.1.now) }
{
    for (i, token) in tokens.iter().enumerate() {
        if !is_low(token) {
            return (&tokens[..i], &tokens[i..]);
        }
    }
    (tokens, &[])
}

/// The term at the front, which goes as far as tokens of forms do.
pub fn value<'t>(
    alloc: Global,
    reader: &Reader<'_>,
    tokens: &'t [Token],
) -> Result<(Term, &'t [Token]), Fault>
    requires { AreLeafKinds reader.now.ctx.now.signature reader.now.kinds }
    ensures ok { IfOk result (λ r. parts.HasValue reader.now.ctx.now.signature (token_texts tokens.now) r.0
        (token_texts r.1.now)) }
    ensures outside { IfErr result (OnOutside (parts.NoValue reader.now.ctx.now.signature (token_texts tokens.now))) }
{
    let (front, rest) = divided(tokens);
    let term = form(alloc, reader, front)?;
    Ok((term, rest))
}

/// The terms in brackets at the front.
fn values<'t>(
    alloc: Global,
    reader: &Reader<'_>,
    tokens: &'t [Token],
) -> Result<(Seq<Term>, &'t [Token]), Fault>
    requires { AreLeafKinds reader.now.ctx.now.signature reader.now.kinds }
    ensures ok { IfOk result (λ r. parts.HasValues reader.now.ctx.now.signature (token_texts tokens.now) r.0
        (token_texts r.1.now)) }
    ensures outside { IfErr result (OnOutside (parts.NoValues reader.now.ctx.now.signature (token_texts tokens.now))) }
{
    let mut found = Vec::new(alloc);
    let mut rest = tokens;
    while let Some(inner) = after(rest, b"[") {
        let (term, behind) = value(alloc, reader, inner)?;
        let Some(behind) = after(behind, b"]") else {
            return Err(Fault::Outside);
        };
        found.push(term)?;
        rest = behind;
    }
    Ok((Seq::of(found), rest))
}

/// The values at the front, behind their word, if there are any.
pub fn with<'t>(
    alloc: Global,
    reader: &Reader<'_>,
    tokens: &'t [Token],
) -> Result<(Seq<Term>, &'t [Token]), Fault>
    requires { AreLeafKinds reader.now.ctx.now.signature reader.now.kinds }
    ensures ok { IfOk result (λ r. parts.HasWith reader.now.ctx.now.signature (token_texts tokens.now) r.0
        (token_texts r.1.now)) }
    ensures outside { IfErr result (OnOutside (parts.NoWith reader.now.ctx.now.signature (token_texts tokens.now))) }
{
    let Some(behind) = after(tokens, b"with") else {
        return Ok((Seq::of(Vec::new(alloc)), tokens));
    };
    let (found, rest) = values(alloc, reader, behind)?;
    if found.as_slice().is_empty() {
        return Err(Fault::Outside);
    }
    Ok((found, rest))
}
