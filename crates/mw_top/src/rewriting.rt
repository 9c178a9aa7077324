// Commands that rewrite a term: it is read, and rewritten with the module's rules, and its block is written.
ghost use Rattle.std.specs.Prelude.{◌≡◌, IfOk, MatchResult};
ghost use Rattle.mw_logic.specs.Term.{RawTerm};
ghost use Rattle.mw_logic.specs.NormalForm.{normal_form};
ghost use Rattle.mw_module.specs.Words.{texts};
ghost use Rattle.mw_canon.specs.Canonical.{IsAdmittedTerm};
ghost use Rattle.mw_index.specs.Index.{IsIndexOf};
ghost use Rattle.mw_top.specs.Commands.{IsTerm, IsRewritten, TermFault};

use crate::reduction::{Repeated, command_term, status_of, told};
use mw_block::Status;
use mw_build::Module;
use mw_index::Index;
use mw_lex::Token;
use mw_module::FaultKind;
use mw_rule::{Bounds, rewrite_alone};
use mw_term::Term;
use mw_words::Options;
use std::alloc::{AllocError, Global};

/// Rewrites a term by at most so many steps, and so many rules where there is a bound, by an index of the module's
/// statements, and gives the text.
fn rewritten_over(
    alloc: Global,
    accepted: &Module,
    index: &Index,
    term: Term,
    bound: Option<u64>,
    options: Options,
) -> Result<Vec<u8>, AllocError>
    requires admitted { IsAdmittedTerm accepted.now.module.signature term }
    requires index { IsIndexOf accepted.now.module index.now }
    ensures { (written : RawTerm) → term ≡ normal_form accepted.now.module.signature written → IfOk result (λ text. IsRewritten accepted.now bound options written text.items) }
{
    let context = accepted.context();
    let bounds = Bounds {
        rules: bound,
        steps: options.max,
        side: options.max,
    };
    let (proved, outcome) = rewrite_alone(alloc, context, index, term, bounds)?;
    proved.shows();
    let status = status_of(outcome, Status::Final);
    let echo = Repeated {
        command: "rewrite",
        bound,
    };
    told(alloc, accepted, echo, &proved, status, options)
}

/// Rewrites a term by at most so many steps, and so many rules where there is a bound, and gives the text.
fn rewritten_term(
    alloc: Global,
    accepted: &Module,
    term: Term,
    bound: Option<u64>,
    options: Options,
) -> Result<Vec<u8>, AllocError>
    requires { IsAdmittedTerm accepted.now.module.signature term }
    ensures { (written : RawTerm) → term ≡ normal_form accepted.now.module.signature written → IfOk result (λ text. IsRewritten accepted.now bound options written text.items) }
{
    if let Some(index) = accepted.index() {
        return rewritten_over(alloc, accepted, index, term, bound, options);
    }
    let index = Index::of(alloc, accepted.context())?;
    rewritten_over(alloc, accepted, &index, term, bound, options)
}

/// What a rewriting of what the tokens spell gives, by at most so many steps, and so many rules where there is a
/// bound: its text, or a fault.
pub fn rewriting_of(
    alloc: Global,
    accepted: &Module,
    tokens: &[Token],
    bound: Option<u64>,
    options: Options,
) -> Result<Result<Vec<u8>, FaultKind>, AllocError>
    ensures { let words = texts tokens.now in
        IfOk result (λ r. MatchResult r
        (λ text. (t : RawTerm) × IsTerm accepted.now words t × IsRewritten accepted.now bound options t text.items)
        (λ kind. TermFault accepted.now words kind)) }
{
    match command_term(alloc, accepted, tokens)? {
        Ok(term) => {
            let text = rewritten_term(alloc, accepted, term, bound, options)?;
            Ok(Ok(text))
        }
        Err(kind) => Ok(Err(kind)),
    }
}
