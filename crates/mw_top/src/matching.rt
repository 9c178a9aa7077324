// Commands that match a pattern: its solutions are found, and listed in a block.
ghost use Rattle.std.specs.Prelude.{◌≡◌, ◌↔◌, ℕ, List, [], IfOk, IsTrue, MatchResult};
ghost use Rattle.mw_logic.specs.Term.{RawTerm};
ghost use Rattle.mw_logic.specs.Signature.{IsRawTerm};
ghost use Rattle.mw_logic.specs.NormalForm.{normal_form};
ghost use Rattle.mw_term.specs.Raws.{raw_term};
ghost use Rattle.mw_text.specs.Readings.{ReadsPair};
ghost use Rattle.mw_module.specs.Words.{texts};
ghost use Rattle.mw_module.specs.declared.faults.FaultKind.TheVariants.{TooDeep};
ghost use Rattle.mw_parse.specs.Answers.{HasPairCause};
ghost use Rattle.mw_canon.specs.Canonical.{IsAdmittedTerm};
ghost use Rattle.mw_solving.specs.Values.{IsValue};
ghost use Rattle.mw_position.specs.Variables.{sorts_of};
ghost use Rattle.mw_compile.specs.Compiled.{IsCompiled};
ghost use Rattle.mw_match.specs.Solutions.{AreNamed, IsAllSolutions};
ghost use Rattle.mw_match.specs.Listing.{AreListed, HaveCanonicalValues};
ghost use Rattle.mw_build.specs.Statements.{Oversized, FitsIn};
ghost use Rattle.mw_build.specs.Modules.{Accepted};
ghost use Rattle.mw_top.specs.Matches.{AreMatchSides, AreCanonicalSides, AreOversized, IsMatched, SidesFault, match_word};

use mw_block::{Matched, matches, noted};
use mw_build::{Module, canonical};
use mw_compile::{Compiled, compile};
use mw_least::Ctx;
use mw_lex::Token;
use mw_match::{Solution, Solutions, listed};
use mw_module::FaultKind;
use mw_parse::Unread;
use mw_term::{Raw, Seq, Subst, Term};
use mw_words::Options;
use std::alloc::{AllocError, Global};

/// The canonical forms of a pattern and a subject.
#[derive(Drop)]
pub struct Sides {
    pub pattern: Term,
    pub subject: Term,
}

/// What is wrong with texts that aren't read.
fn unread(error: &Unread<(Raw, Raw)>) -> Result<FaultKind, AllocError>
    ensures { (a : Accepted) (pattern subject : List (List ℕ)) → HasPairCause a.module.signature a.variables pattern subject error.now
        → IfOk result (SidesFault a pattern subject) }
{
    match error {
        Unread::TooLong => Ok(FaultKind::TermTooLong),
        Unread::NoParse => Ok(FaultKind::NoParse),
        Unread::Ambiguous { .. } => Ok(FaultKind::Ambiguous),
        Unread::Memory => Err(AllocError),
    }
}

fn is_depth(kind: &FaultKind) -> bool
    ensures { IsTrue result ↔ (kind.now ≡ TooDeep) }
{
    matches!(kind, FaultKind::TooDeep)
}

/// Of what keeps a pattern and a subject out that which is told: that one of them is too deep comes first.
fn sooner(pattern: &FaultKind, subject: FaultKind) -> FaultKind
    ensures { (a : Accepted) (p t : RawTerm) → Oversized a.module.signature p pattern.now → Oversized a.module.signature t subject
        → AreOversized a p t result }
{
    if is_depth(pattern) {
        return FaultKind::TooDeep;
    }
    subject
}

/// The canonical forms of a pattern and a subject, or what keeps one of them out.
fn canonical_sides(
    alloc: Global,
    accepted: &Module,
    pattern: &Raw,
    subject: &Raw,
) -> Result<Result<Sides, FaultKind>, AllocError>
    requires pattern { IsRawTerm accepted.now.module.signature (raw_term pattern.now) }
    requires subject { IsRawTerm accepted.now.module.signature (raw_term subject.now) }
    ensures { let sig = accepted.now.module.signature in
        let p = raw_term pattern.now in
        let t = raw_term subject.now in
        IfOk result (λ r. MatchResult r
        (λ s. FitsIn sig p × FitsIn sig t × (s.pattern ≡ normal_form sig p) × (s.subject ≡ normal_form sig t))
        (AreOversized accepted.now p t)) }
{
    let facts = accepted.context().facts();
    let pattern = canonical(alloc, facts, pattern)?;
    let subject = canonical(alloc, facts, subject)?;
    Ok(both(pattern, subject))
}

/// Both, or what is wrong with one of them.
fn both(
    pattern: Result<Term, FaultKind>,
    subject: Result<Term, FaultKind>,
) -> Result<Sides, FaultKind>
    ensures { (a : Accepted) (p t : RawTerm) → let sig = a.module.signature in
        MatchResult pattern (λ u. FitsIn sig p × (u ≡ normal_form sig p)) (Oversized sig p)
        → MatchResult subject (λ u. FitsIn sig t × (u ≡ normal_form sig t)) (Oversized sig t)
        → MatchResult result
        (λ s. FitsIn sig p × FitsIn sig t × (s.pattern ≡ normal_form sig p) × (s.subject ≡ normal_form sig t))
        (AreOversized a p t) }
{
    match pattern {
        Ok(pattern) => match subject {
            Ok(subject) => Ok(Sides { pattern, subject }),
            Err(kind) => Err(kind),
        },
        Err(kind) => match subject {
            Ok(_) => Err(kind),
            Err(other) => Err(sooner(&kind, other)),
        },
    }
}

/// The same of terms that were read, of which the subject is to have no variable.
fn ground_sides(
    alloc: Global,
    accepted: &Module,
    pattern: &Raw,
    subject: &Raw,
) -> Result<Result<Sides, FaultKind>, AllocError>
    requires pattern { IsRawTerm accepted.now.module.signature (raw_term pattern.now) }
    requires subject { IsRawTerm accepted.now.module.signature (raw_term subject.now) }
    ensures { (left right : List (List ℕ)) → ReadsPair accepted.now.module.signature accepted.now.variables left right (raw_term pattern.now, raw_term subject.now)
        → IfOk result (λ r. MatchResult r (AreCanonicalSides accepted.now left right) (SidesFault accepted.now left right)) }
{
    accepted.context().shows();
    if !subject.is_ground() {
        return Ok(Err(FaultKind::OpenTerm));
    }
    let sides = canonical_sides(alloc, accepted, pattern, subject)?;
    Ok(sides)
}

/// The pattern and the subject that tokens spell, or what is wrong with them.
fn read_sides(
    alloc: Global,
    accepted: &Module,
    pattern: &[Token],
    subject: &[Token],
) -> Result<Result<Sides, FaultKind>, AllocError>
    ensures { let left = texts pattern.now in
        let right = texts subject.now in
        IfOk result (λ r. MatchResult r (AreCanonicalSides accepted.now left right) (SidesFault accepted.now left right)) }
{
    match accepted.pair(alloc, pattern, subject) {
        Ok((pattern, subject)) => {
            let sides = ground_sides(alloc, accepted, &pattern, &subject)?;
            Ok(sides)
        }
        Err(error) => Ok(Err(unread(&error)?)),
    }
}

/// The solutions of a compiled pattern, for parts on top too where these count.
fn search<'c>(
    alloc: Global,
    context: &'c Ctx,
    compiled: &'c Compiled,
    subject: &Term,
    inside: bool,
) -> Result<Solutions<'c>, AllocError>
    requires compiled { compiled.now.positions.sorts ≡ sorts_of compiled.now.variables }
    requires subject { IsValue context.now.signature subject.now }
    ensures all { let sig = context.now.signature in
        (p : RawTerm) → IsRawTerm sig p → IsCompiled sig (normal_form sig p) [] compiled.now
        → IfOk result (IsAllSolutions sig inside p subject.now []) }
    ensures named { let sig = context.now.signature in
        (p : RawTerm) → IsRawTerm sig p → IsCompiled sig (normal_form sig p) [] compiled.now
        → IfOk result (AreNamed sig compiled.now.variables) }
{
    let none = nothing(alloc);
    if inside {
        let solutions = Solutions::inside(alloc, context, compiled, subject, &none)?;
        Ok(solutions)
    } else {
        let solutions = Solutions::new(alloc, context, compiled, subject, &none)?;
        Ok(solutions)
    }
}

fn nothing(alloc: Global) -> Subst
    ensures { result ≡ [] }
{
    Subst {
        pairs: Seq::of(Vec::new(alloc)),
    }
}

/// The solutions of a pattern for a subject, or the first so many, in order.
fn solutions(
    alloc: Global,
    context: &Ctx,
    sides: &Sides,
    inside: bool,
    most: u64,
) -> Result<Vec<Solution>, AllocError>
    requires { IsValue context.now.signature sides.now.subject }
    ensures all { let sig = context.now.signature in
        (p : RawTerm) → IsRawTerm sig p → sides.now.pattern ≡ normal_form sig p
        → IfOk result (λ found. AreListed sig inside p sides.now.subject [] most found.items) }
    ensures values { let sig = context.now.signature in
        (p : RawTerm) → IsRawTerm sig p → sides.now.pattern ≡ normal_form sig p
        → IfOk result (λ found. HaveCanonicalValues sig found.items) }
{
    let compiled = compile(alloc, context, &sides.pattern, &nothing(alloc))?;
    let mut solutions = search(alloc, context, &compiled, &sides.subject, inside)?;
    let found = listed(alloc, &mut solutions, most)?;
    Ok(found)
}

fn word_text(inside: bool) -> &'static str
    ensures { result.now ≡ match_word inside }
{
    if inside { "xmatch" } else { "match" }
}

/// The block for a pattern and a subject.
fn matched(
    alloc: Global,
    accepted: &Module,
    sides: &Sides,
    inside: bool,
    options: Options,
) -> Result<Vec<u8>, AllocError>
    requires { IsValue accepted.now.module.signature sides.now.subject }
    ensures { let sig = accepted.now.module.signature in
        (p t : RawTerm) → IsRawTerm sig p → sides.now.pattern ≡ normal_form sig p → sides.now.subject ≡ normal_form sig t
        → IsAdmittedTerm sig sides.now.subject
        → IfOk result (λ text. IsMatched accepted.now inside options p t text.items) }
{
    let context = accepted.context();
    context.shows();
    let found = solutions(alloc, context, sides, inside, options.max)?;
    let limited = found.len() as u64 == options.max;
    let told = Matched {
        command: word_text(inside),
        name: accepted.name(),
        pattern: &sides.pattern,
        subject: &sides.subject,
    };
    let block = matches(alloc, context.signature(), &told, found.as_slice(), limited)?;
    noted(alloc, options.proof, block)
}

/// What the matches of a pattern give: their block, with at most so many, or a fault.
pub fn matches_of(
    alloc: Global,
    accepted: &Module,
    pattern: &[Token],
    subject: &[Token],
    inside: bool,
    options: Options,
) -> Result<Result<Vec<u8>, FaultKind>, AllocError>
    ensures { let left = texts pattern.now in
        let right = texts subject.now in
        IfOk result (λ r. MatchResult r
        (λ text. (p : RawTerm) × (t : RawTerm) × AreMatchSides accepted.now left right p t × IsMatched accepted.now inside options p t text.items)
        (SidesFault accepted.now left right)) }
{
    match read_sides(alloc, accepted, pattern, subject)? {
        Ok(sides) => {
            let text = matched(alloc, accepted, &sides, inside, options)?;
            Ok(Ok(text))
        }
        Err(kind) => Ok(Err(kind)),
    }
}
