// Equations and rules, from tokens to statements.
ghost use Rattle.std.specs.Prelude.{◌≡◌, ◌↔◌, List, All, map, option_copied, IfOk, IfSome, IsTrue, MatchOption, MatchResult};
ghost use Rattle.mw_logic.specs.Term.{Variable, variable as a_variable};
ghost use Rattle.mw_logic.specs.Signature.{Signature as SignatureOf, IsRawTerm};
ghost use Rattle.mw_logic.specs.Accepted.{IsAccepted};
ghost use Rattle.mw_logic.specs.NormalForm.{normal_form};
ghost use Rattle.mw_term.specs.Raws.{raw_term};
ghost use Rattle.mw_term.specs.Statements.{fragment_of};
ghost use Rattle.mw_module.specs.Units.{seen_statements};
ghost use Rattle.mw_module.specs.Words.{texts};
ghost use Rattle.mw_text.specs.Readings.{ReadsPair};
ghost use Rattle.mw_least.specs.Conditions.{AreRawFragments};
ghost use Rattle.mw_grammar.specs.Grammars.{IsGrammarOf, IsReading};
ghost use Rattle.mw_build.specs.Statements.{FitsIn, FirstOversized, all_terms, IsReadAs, StatementFault, IsApplicable, ApplicationFault, AreFine, IsStatementOf, TermsFault, IsFine, HasFaultOfTerms, IsObjectRule, ObjectRuleFault, IsOwn, OwnFault, AreReadAs, FirstFault, statement_of as made_statement};
ghost use Rattle.mw_omod.specs.Workable.{AreClasses};
ghost use Rattle.mw_module.specs.declared.faults.FaultKind.TheVariants.{BadObject};
ghost use Rattle.mw_build.specs.Sides.{sides_of, seen_sides, all_seen_sides};

use crate::fragments::{fragments_of, pair};
use crate::sizes::{canonical, fragments_fault, term_fault};
use crate::variables::unbound;
use mw_canon::Facts;
use mw_grammar::Grammar;
use mw_lex::Token;
use mw_module::{Fault, FaultKind, Form, Lined, WrittenFragment};
use mw_omod::{Classes, CompletionError, complete, variables_of};
use mw_term::{Fragment, Raw, Seq, Statement, Term, View};
use std::alloc::{AllocError, Global};

/// An equation or a rule: its line, its sides as tokens, the fragments of its condition, and whether it is executable.
#[derive(Clone, Copy)]
pub struct WrittenStatement<'u, 's> {
    pub line: u32,
    pub rule: bool,
    pub left: &'s [Token],
    pub right: &'s [Token],
    pub fragments: &'u [WrittenFragment<'s>],
    pub executable: bool,
}

/// The equations and rules among the statements of a module.
pub fn written_statements<'u, 's>(
    alloc: Global,
    statements: &'u [Lined<'s>],
) -> Result<Vec<WrittenStatement<'u, 's>>, AllocError>
    ensures { IfOk result (λ v. all_seen_sides v.items ≡ sides_of (seen_statements statements.now)) }
{
    let mut found = Vec::new(alloc);
    let mut rest = statements;
    while let [statement, after @ ..] = rest {
        if let Form::Statement {
            rule,
            left,
            right,
            fragments,
            executable,
        } = &statement.form
        {
            found.push(WrittenStatement {
                line: statement.line,
                rule: *rule,
                left,
                right,
                fragments: fragments.as_slice(),
                executable: *executable,
            })?;
        }
        rest = after;
    }
    Ok(found)
}

fn is_variable(term: &Term) -> bool
    ensures { IsTrue result ↔ (x : Variable) × (term.now ≡ a_variable x) }
{
    matches!(term.view(), View::Var(_))
}

/// Why a statement of these sides and fragments can't be applied, if it can't, by its left side's canonical form too.
fn application_fault(
    alloc: Global,
    canonical: &Term,
    left: &Raw,
    right: &Raw,
    fragments: &[Fragment],
) -> Result<Option<FaultKind>, AllocError>
    ensures { (sig : SignatureOf) → IsAccepted sig → IsRawTerm sig (raw_term left.now) → canonical.now ≡ normal_form sig (raw_term left.now) → IfOk result (λ o. MatchOption o
        (IsApplicable sig (raw_term left.now) (raw_term right.now) (map fragment_of fragments.now))
        (λ kind. ApplicationFault sig (raw_term left.now) (raw_term right.now) (map fragment_of fragments.now) kind)) }
{
    if is_variable(canonical) {
        return Ok(Some(FaultKind::LoneVariable));
    }
    match unbound(alloc, left, right, fragments)? {
        Some(variable) => Ok(Some(FaultKind::UnboundVariable(variable.name))),
        None => Ok(None),
    }
}

/// What keeps a term of a statement out, the first one at fault; or the canonical form of the left side.
fn left_form(
    alloc: Global,
    facts: &Facts,
    left: &Raw,
    right: &Raw,
    fragments: &[Fragment],
) -> Result<Result<Term, FaultKind>, AllocError>
    requires left { IsRawTerm facts.now (raw_term left.now) }
    requires right { IsRawTerm facts.now (raw_term right.now) }
    requires fragments { AreRawFragments facts.now (map fragment_of fragments.now) }
    ensures { IfOk result (λ r. MatchResult r
        (λ t. All (FitsIn facts.now) (all_terms (raw_term left.now) (raw_term right.now) (map fragment_of fragments.now)) × (t ≡ normal_form facts.now (raw_term left.now)))
        (λ kind. FirstOversized facts.now kind (all_terms (raw_term left.now) (raw_term right.now) (map fragment_of fragments.now)))) }
{
    let form = match canonical(alloc, facts, left)? {
        Ok(form) => form,
        Err(kind) => return Ok(Err(kind)),
    };
    if let Some(kind) = term_fault(alloc, facts, right)? {
        return Ok(Err(kind));
    }
    match fragments_fault(alloc, facts, fragments)? {
        Some(kind) => Ok(Err(kind)),
        None => Ok(Ok(form)),
    }
}

/// What is wrong with the terms of a statement, if anything is.
fn terms_fault(
    alloc: Global,
    facts: &Facts,
    left: &Raw,
    right: &Raw,
    fragments: &[Fragment],
    executable: bool,
) -> Result<Option<FaultKind>, AllocError>
    requires left { IsRawTerm facts.now (raw_term left.now) }
    requires right { IsRawTerm facts.now (raw_term right.now) }
    requires fragments { AreRawFragments facts.now (map fragment_of fragments.now) }
    ensures { IfOk result (λ o. MatchOption o
        (AreFine facts.now (raw_term left.now) (raw_term right.now) (map fragment_of fragments.now) executable)
        (λ kind. TermsFault facts.now (raw_term left.now) (raw_term right.now) (map fragment_of fragments.now) executable kind)) }
{
    facts.shows();
    match left_form(alloc, facts, left, right, fragments)? {
        Ok(form) => {
            if executable {
                application_fault(alloc, &form, left, right, fragments)
            } else {
                Ok(None)
            }
        }
        Err(kind) => Ok(Some(kind)),
    }
}

/// What is wrong with the terms of a statement, if anything is.
fn fault_of(
    alloc: Global,
    facts: &Facts,
    statement: &Statement,
) -> Result<Option<FaultKind>, AllocError>
    requires left { IsRawTerm facts.now statement.now.left }
    requires right { IsRawTerm facts.now statement.now.right }
    requires fragments { AreRawFragments facts.now statement.now.fragments }
    ensures { IfOk result (λ o. MatchOption o
        (IsFine facts.now statement.now)
        (λ kind. HasFaultOfTerms facts.now statement.now kind)) }
{
    let fragments = statement.fragments.as_slice();
    let executable = statement.executable;
    terms_fault(
        alloc,
        facts,
        &statement.left,
        &statement.right,
        fragments,
        executable,
    )
}

/// The statement, or what is wrong with its terms.
fn checked(
    alloc: Global,
    facts: &Facts,
    statement: Statement,
) -> Result<Result<Statement, FaultKind>, AllocError>
    requires left { IsRawTerm facts.now statement.left }
    requires right { IsRawTerm facts.now statement.right }
    requires fragments { AreRawFragments facts.now statement.fragments }
    ensures { IfOk result (λ r. MatchResult r
        (λ st. IsFine facts.now statement × (st ≡ statement))
        (λ kind. HasFaultOfTerms facts.now statement kind)) }
{
    match fault_of(alloc, facts, &statement)? {
        Some(kind) => Ok(Err(kind)),
        None => Ok(Ok(statement)),
    }
}

/// The statement of these sides and fragments, whatever is wrong with their terms.
fn unchecked(
    alloc: Global,
    left: Raw,
    right: Raw,
    fragments: Vec<Fragment>,
    rule: bool,
    executable: bool,
) -> Result<Statement, AllocError>
    ensures { IfOk result (λ st. st ≡ made_statement (raw_term left) (raw_term right) (map fragment_of fragments.items) rule executable) }
{
    let variables = variables_of(alloc, &left, &right, &fragments)?;
    Ok(Statement {
        left,
        right,
        fragments: Seq::of(fragments),
        variables,
        rule,
        executable,
        owise: false,
    })
}

/// The statement of these sides and fragments, or what is wrong with their terms.
pub fn statement_of(
    alloc: Global,
    facts: &Facts,
    left: Raw,
    right: Raw,
    fragments: Vec<Fragment>,
    rule: bool,
    executable: bool,
) -> Result<Result<Statement, FaultKind>, AllocError>
    requires left { IsRawTerm facts.now (raw_term left) }
    requires right { IsRawTerm facts.now (raw_term right) }
    requires fragments { AreRawFragments facts.now (map fragment_of fragments.items) }
    ensures { IfOk result (λ r. MatchResult r
        (λ st. IsStatementOf facts.now (raw_term left) (raw_term right) (map fragment_of fragments.items) rule executable st)
        (λ kind. TermsFault facts.now (raw_term left) (raw_term right) (map fragment_of fragments.items) executable kind)) }
{
    let statement = unchecked(alloc, left, right, fragments, rule, executable)?;
    checked(alloc, facts, statement)
}

/// What is told of a rule in which a bad object stands: what else is wrong with its terms, or else that.
fn told(fault: Option<FaultKind>) -> FaultKind
    ensures { MatchOption fault (result ≡ BadObject) (λ kind. result ≡ kind) }
{
    match fault {
        Some(kind) => kind,
        None => FaultKind::BadObject,
    }
}

/// The completed rule that a rule of an object module is, or what is wrong with it.
fn object_rule(
    alloc: Global,
    facts: &Facts,
    classes: &Classes,
    rule: Statement,
) -> Result<Result<Statement, FaultKind>, AllocError>
    requires classes { AreClasses facts.now classes.now }
    requires left { IsRawTerm facts.now rule.left }
    requires right { IsRawTerm facts.now rule.right }
    requires fragments { AreRawFragments facts.now rule.fragments }
    ensures { IfOk result (λ r. MatchResult r
        (IsObjectRule facts.now classes.now rule)
        (λ kind. ObjectRuleFault facts.now classes.now rule kind)) }
{
    facts.shows();
    let fault = fault_of(alloc, facts, &rule)?;
    match complete(alloc, facts, classes, rule) {
        Ok(completed) => checked(alloc, facts, completed),
        Err(CompletionError::BadObject) => Ok(Err(told(fault))),
        Err(CompletionError::Memory) => Err(AllocError),
    }
}

/// How the own statements of a module are read: with its signature, its grammar, and in an object module the classes
/// by which its rules are completed.
#[derive(Clone, Copy)]
pub struct Reader<'r> {
    pub facts: &'r Facts,
    pub grammar: &'r Grammar,
    pub classes: Option<&'r Classes>,
}

/// The statement among a module's own that this one is as it is written, or what is wrong with it.
fn own_statement(
    alloc: Global,
    reader: Reader<'_>,
    statement: Statement,
) -> Result<Result<Statement, FaultKind>, AllocError>
    requires left { IsRawTerm reader.facts.now statement.left }
    requires right { IsRawTerm reader.facts.now statement.right }
    requires fragments { AreRawFragments reader.facts.now statement.fragments }
    requires classes { IfSome reader.classes (λ K. AreClasses reader.facts.now K.now) }
    ensures { IfOk result (λ r. MatchResult r
        (IsOwn reader.entry.facts.now (option_copied reader.entry.classes) statement)
        (λ kind. OwnFault reader.entry.facts.now (option_copied reader.entry.classes) statement kind)) }
{
    match reader.classes {
        Some(classes) => {
            if statement.rule {
                object_rule(alloc, reader.facts, classes, statement)
            } else {
                checked(alloc, reader.facts, statement)
            }
        }
        None => checked(alloc, reader.facts, statement),
    }
}

/// The statement that a written one is whose texts spell these sides, or what is wrong with it.
fn with_condition(
    alloc: Global,
    reader: Reader<'_>,
    written: &WrittenStatement<'_, '_>,
    left: Raw,
    right: Raw,
) -> Result<Result<Statement, FaultKind>, AllocError>
    requires reading { IsReading reader.grammar.now }
    requires grammar { (variables : List Variable) × IsGrammarOf reader.facts.now variables reader.grammar.now }
    requires classes { IfSome reader.classes (λ K. AreClasses reader.facts.now K.now) }
    requires left { IsRawTerm reader.facts.now (raw_term left) }
    requires right { IsRawTerm reader.facts.now (raw_term right) }
    ensures { (variables : List Variable) → IsGrammarOf reader.entry.facts.now variables reader.entry.grammar.now
        → ReadsPair reader.entry.facts.now variables (texts (seen_sides written.now).left) (texts (seen_sides written.now).right) (raw_term left, raw_term right)
        → IfOk result (λ r. MatchResult r
        (IsReadAs reader.entry.facts.now variables (option_copied reader.entry.classes) (seen_sides written.now))
        (λ kind. StatementFault reader.entry.facts.now variables (option_copied reader.entry.classes) (seen_sides written.now) kind)) }
{
    reader.facts.shows();
    match fragments_of(alloc, reader.grammar, written.fragments)? {
        Ok(fragments) => {
            let rule = written.rule;
            let executable = written.executable;
            let statement = unchecked(alloc, left, right, fragments, rule, executable)?;
            own_statement(alloc, reader, statement)
        }
        Err(kind) => Ok(Err(kind)),
    }
}

/// The statement that a written one is, or what is wrong with it.
fn statement(
    alloc: Global,
    reader: Reader<'_>,
    written: &WrittenStatement<'_, '_>,
) -> Result<Result<Statement, FaultKind>, AllocError>
    requires reading { IsReading reader.grammar.now }
    requires grammar { (variables : List Variable) × IsGrammarOf reader.facts.now variables reader.grammar.now }
    requires classes { IfSome reader.classes (λ K. AreClasses reader.facts.now K.now) }
    ensures { (variables : List Variable) → IsGrammarOf reader.entry.facts.now variables reader.entry.grammar.now → IfOk result (λ r. MatchResult r
        (IsReadAs reader.entry.facts.now variables (option_copied reader.entry.classes) (seen_sides written.now))
        (λ kind. StatementFault reader.entry.facts.now variables (option_copied reader.entry.classes) (seen_sides written.now) kind)) }
{
    reader.facts.shows();
    match pair(alloc, reader.grammar, written.left, written.right)? {
        Ok((left, right)) => with_condition(alloc, reader, written, left, right),
        Err(kind) => Ok(Err(kind)),
    }
}

/// The statements that written ones are, or the first fault.
pub fn statements_of(
    alloc: Global,
    reader: Reader<'_>,
    statements: &[WrittenStatement<'_, '_>],
) -> Result<Result<Vec<Statement>, Fault>, AllocError>
    requires reading { IsReading reader.grammar.now }
    requires grammar { (variables : List Variable) × IsGrammarOf reader.facts.now variables reader.grammar.now }
    requires classes { IfSome reader.classes (λ K. AreClasses reader.facts.now K.now) }
    ensures { (variables : List Variable) → IsGrammarOf reader.entry.facts.now variables reader.entry.grammar.now → IfOk result (λ r. MatchResult r
        (λ sts. AreReadAs reader.entry.facts.now variables (option_copied reader.entry.classes) (all_seen_sides statements.now) sts.items)
        (λ fault. FirstFault reader.entry.facts.now variables (option_copied reader.entry.classes) (all_seen_sides statements.now) fault)) }
{
    let mut found = Vec::new(alloc);
    for written in statements {
        match statement(alloc, reader, written)? {
            Ok(statement) => found.push(statement)?,
            Err(kind) => {
                let line = written.line;
                return Ok(Err(Fault { line, kind }));
            }
        }
    }
    Ok(Ok(found))
}
