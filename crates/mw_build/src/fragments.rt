// Texts of statements, from tokens to terms.
ghost use Rattle.std.specs.Prelude.{◌≡◌, ◌-◌, ℕ, List, length, take, drop, map, Option, Some, IfOk, MatchOption, MatchResult};
ghost use Rattle.mw_logic.specs.Term.{Variable};
ghost use Rattle.mw_logic.specs.Signature.{Signature as SignatureOf};
ghost use Rattle.mw_logic.specs.Accepted.{number_of_sort};
ghost use Rattle.mw_term.specs.Raws.{raw_term};
ghost use Rattle.mw_term.specs.Signatures.{sorted_of};
ghost use Rattle.mw_term.specs.Statements as held;
ghost use Rattle.mw_text.specs.Mixfix.{Reads};
ghost use Rattle.mw_text.specs.Readings.{ReadsPair};
ghost use Rattle.mw_module.specs.Conditions.{Other, seen_fragment, seen_fragments};
ghost use Rattle.mw_module.specs.Words.{texts};
ghost use Rattle.mw_parse.specs.Answers.{HasCause, HasPairCause};
ghost use Rattle.mw_grammar.specs.Grammars.{IsGrammarOf, IsReading};
ghost use Rattle.mw_build.specs.Endings as endings;
ghost use Rattle.mw_build.specs.Endings.{AsksNothing};
ghost use Rattle.mw_lex.specs.declared.token.Token.{Token as TokenOf};
ghost use Rattle.mw_build.specs.Fragments.{Asks, asked_for, IsTest, IsNoTest, TextFault, PairFault, IsFragment, FragmentFault, AreFragments, FirstFragmentFault};

use mw_grammar::Grammar;
use mw_lex::Token;
use mw_module::{FaultKind, WrittenFragment, is_word};
use mw_parse::{Unread, parse, parse_pair};
use mw_term::{Fragment, Raw, SortId, Sorted};
use std::alloc::{AllocError, Global};

/// A colon and a name, which is no bracket.
fn is_sort_end(end: &[Token]) -> bool
    ensures { result ≡ endings.is_sort_end end.now }
{
    match end {
        [colon, name] => is_word(colon, b":") && !is_word(name, b"]"),
        _ => false,
    }
}

/// A colon and a name in brackets.
fn is_kind_end(end: &[Token]) -> bool
    ensures { result ≡ endings.is_kind_end end.now }
{
    match end {
        [colon, open, _, close] => {
            is_word(colon, b":") && is_word(open, b"[") && is_word(close, b"]")
        }
        _ => false,
    }
}

/// A text cut in front of so many tokens at its end, or of all where there are fewer.
fn cut(tokens: &[Token], count: usize) -> (&[Token], &[Token])
    ensures front { result.0.now ≡ take (length tokens.now - count) tokens.now }
    ensures end { result.1.now ≡ drop (length tokens.now - count) tokens.now }
{
    let at = if count < tokens.len() {
        tokens.len() - count
    } else {
        0
    };
    tokens.split_at(at)
}

/// The text of a term, and the name behind a colon at the end, alone or in brackets.
#[derive(Clone, Copy)]
struct Asked<'s> {
    term: &'s [Token],
    bracketed: bool,
    name: &'s [u8],
}

/// What stands at the end of a text in the form of a sort test.
fn asked_in(tokens: &[Token]) -> Option<Asked<'_>>
    ensures { MatchOption result (AsksNothing (texts tokens.now)) (λ a. Asks (texts tokens.now) (texts a.term.now) a.bracketed a.name.now) }
{
    let (term, end) = cut(tokens, 4);
    if is_kind_end(end) {
        let name = end[2].text.as_slice();
        return Some(Asked {
            term,
            bracketed: true,
            name,
        });
    }
    let (term, end) = cut(tokens, 2);
    if is_sort_end(end) {
        let name = end[1].text.as_slice();
        return Some(Asked {
            term,
            bracketed: false,
            name,
        });
    }
    None
}

/// A sort, or in brackets its kind.
fn sorted(bracketed: bool, sort: SortId) -> Sorted
    ensures { sorted_of result ≡ asked_for bracketed sort }
{
    if bracketed {
        Sorted::Kind(sort)
    } else {
        Sorted::Sort(sort)
    }
}

/// The number of a sort, or of the sort that tells a kind.
fn number_of(sorted: Sorted) -> SortId
    ensures { result ≡ number_of_sort (sorted_of sorted) }
{
    match sorted {
        Sorted::Sort(sort) => sort,
        Sorted::Kind(sort) => sort,
    }
}

/// The text of a term, and the sort or kind that it is tested for.
#[derive(Clone, Copy)]
struct Test<'s> {
    term: &'s [Token],
    sorted: Sorted,
}

/// The sort test that a text is, if it is one.
fn test_in<'s>(grammar: &Grammar, tokens: &'s [Token]) -> Result<Option<Test<'s>>, AllocError>
    ensures { (sig : SignatureOf) (variables : List Variable) → IsGrammarOf sig variables grammar.now → IfOk result (λ o. MatchOption o
        (IsNoTest sig (texts tokens.now)) (λ t. IsTest sig (texts tokens.now) (texts t.term.now) (sorted_of t.sorted))) }
{
    let Some(asked) = asked_in(tokens) else {
        return Ok(None);
    };
    match grammar.sort_named(asked.name)? {
        Some(sort) => Ok(Some(Test {
            term: asked.term,
            sorted: sorted(asked.bracketed, sort),
        })),
        None => Ok(None),
    }
}

/// What is wrong with a text that isn't read.
fn text_fault(error: &Unread<Raw>) -> Result<FaultKind, AllocError>
    ensures { (sig : SignatureOf) (variables : List Variable) (wanted : Option ℕ) (text : List (List ℕ)) → HasCause sig variables wanted text error.now
        → IfOk result (TextFault sig variables wanted text) }
{
    match error {
        Unread::TooLong => Ok(FaultKind::TermTooLong),
        Unread::NoParse => Ok(FaultKind::NoParse),
        Unread::Ambiguous { .. } => Ok(FaultKind::Ambiguous),
        Unread::Memory => Err(AllocError),
    }
}

/// What is wrong with two texts that aren't read.
fn pair_fault(error: &Unread<(Raw, Raw)>) -> Result<FaultKind, AllocError>
    ensures { (sig : SignatureOf) (variables : List Variable) (left right : List (List ℕ)) → HasPairCause sig variables left right error.now
        → IfOk result (PairFault sig variables left right) }
{
    match error {
        Unread::TooLong => Ok(FaultKind::TermTooLong),
        Unread::NoParse => Ok(FaultKind::NoParse),
        Unread::Ambiguous { .. } => Ok(FaultKind::Ambiguous),
        Unread::Memory => Err(AllocError),
    }
}

/// The one term of a sort's kind that a text spells, or what is wrong with the text.
fn term(
    alloc: Global,
    grammar: &Grammar,
    tokens: &[Token],
    sort: SortId,
) -> Result<Result<Raw, FaultKind>, AllocError>
    requires { IsReading grammar.now }
    ensures { (sig : SignatureOf) (variables : List Variable) → IsGrammarOf sig variables grammar.now → IfOk result (λ r. MatchResult r
        (λ t. Reads sig variables (Some sort) (texts tokens.now) (raw_term t))
        (TextFault sig variables (Some sort) (texts tokens.now))) }
{
    match parse(alloc, grammar, tokens, Some(sort)) {
        Ok(term) => Ok(Ok(term)),
        Err(error) => Ok(Err(text_fault(&error)?)),
    }
}

/// The one pair of terms of one kind that two texts spell, or what is wrong with the texts.
pub fn pair(
    alloc: Global,
    grammar: &Grammar,
    left: &[Token],
    right: &[Token],
) -> Result<Result<(Raw, Raw), FaultKind>, AllocError>
    requires { IsReading grammar.now }
    ensures { (sig : SignatureOf) (variables : List Variable) → IsGrammarOf sig variables grammar.now → IfOk result (λ r. MatchResult r
        (λ p. ReadsPair sig variables (texts left.now) (texts right.now) (raw_term p.0, raw_term p.1))
        (PairFault sig variables (texts left.now) (texts right.now))) }
{
    match parse_pair(alloc, grammar, left, right) {
        Ok(pair) => Ok(Ok(pair)),
        Err(error) => Ok(Err(pair_fault(&error)?)),
    }
}

/// The fragment that a text without sides is as a Boolean term, or what is wrong with it.
fn truth(
    alloc: Global,
    grammar: &Grammar,
    tokens: &[Token],
) -> Result<Result<Fragment, FaultKind>, AllocError>
    requires { IsReading grammar.now }
    ensures { (sig : SignatureOf) (variables : List Variable) → IsGrammarOf sig variables grammar.now → IsNoTest sig (texts tokens.now)
        → IfOk result (λ r. MatchResult r
        (λ f. IsFragment sig variables (Other tokens.now) (held.fragment_of f))
        (FragmentFault sig variables (Other tokens.now))) }
{
    let Some(sort) = grammar.sort_named(b"Bool")? else {
        return Ok(Err(FaultKind::NoParse));
    };
    match term(alloc, grammar, tokens, sort)? {
        Ok(term) => Ok(Ok(Fragment::Holds(term))),
        Err(kind) => Ok(Err(kind)),
    }
}

/// The fragment that a sort test is, or what is wrong with it.
fn tested(
    alloc: Global,
    grammar: &Grammar,
    test: &Test<'_>,
) -> Result<Result<Fragment, FaultKind>, AllocError>
    requires { IsReading grammar.now }
    ensures { (sig : SignatureOf) (variables : List Variable) (ts : List Token) → IsGrammarOf sig variables grammar.now
        → IsTest sig (texts ts) (texts test.now.term.now) (sorted_of test.now.sorted) → IfOk result (λ r. MatchResult r
        (λ f. IsFragment sig variables (Other ts) (held.fragment_of f))
        (FragmentFault sig variables (Other ts))) }
{
    let sort = number_of(test.sorted);
    match term(alloc, grammar, test.term, sort)? {
        Ok(term) => Ok(Ok(Fragment::HasSort(term, test.sorted))),
        Err(kind) => Ok(Err(kind)),
    }
}

/// The fragment that a text without sides is, a sort test or else a Boolean term, or what is wrong with it.
fn other(
    alloc: Global,
    grammar: &Grammar,
    tokens: &[Token],
) -> Result<Result<Fragment, FaultKind>, AllocError>
    requires { IsReading grammar.now }
    ensures { (sig : SignatureOf) (variables : List Variable) → IsGrammarOf sig variables grammar.now → IfOk result (λ r. MatchResult r
        (λ f. IsFragment sig variables (Other tokens.now) (held.fragment_of f))
        (FragmentFault sig variables (Other tokens.now))) }
{
    match test_in(grammar, tokens)? {
        Some(test) => tested(alloc, grammar, &test),
        None => truth(alloc, grammar, tokens),
    }
}

/// The fragment that a written one is, or what is wrong with it.
fn fragment(
    alloc: Global,
    grammar: &Grammar,
    written: &WrittenFragment<'_>,
) -> Result<Result<Fragment, FaultKind>, AllocError>
    requires { IsReading grammar.now }
    ensures { (sig : SignatureOf) (variables : List Variable) → IsGrammarOf sig variables grammar.now → IfOk result (λ r. MatchResult r
        (λ f. IsFragment sig variables (seen_fragment written.now) (held.fragment_of f))
        (FragmentFault sig variables (seen_fragment written.now))) }
{
    match written {
        WrittenFragment::Match { pattern, term } => match pair(alloc, grammar, pattern, term)? {
            Ok((pattern, term)) => Ok(Ok(Fragment::Match(pattern, term))),
            Err(kind) => Ok(Err(kind)),
        },
        WrittenFragment::Equal { left, right } => match pair(alloc, grammar, left, right)? {
            Ok((left, right)) => Ok(Ok(Fragment::Equal(left, right))),
            Err(kind) => Ok(Err(kind)),
        },
        WrittenFragment::Other(text) => other(alloc, grammar, text),
    }
}

/// The fragments that written ones are, or what is wrong with the first that is none.
pub fn fragments_of(
    alloc: Global,
    grammar: &Grammar,
    written: &[WrittenFragment<'_>],
) -> Result<Result<Vec<Fragment>, FaultKind>, AllocError>
    requires { IsReading grammar.now }
    ensures { (sig : SignatureOf) (variables : List Variable) → IsGrammarOf sig variables grammar.now → IfOk result (λ r. MatchResult r
        (λ fs. AreFragments sig variables (seen_fragments written.now) (map held.fragment_of fs.items))
        (FirstFragmentFault sig variables (seen_fragments written.now))) }
{
    let mut found = Vec::new(alloc);
    for one in written {
        match fragment(alloc, grammar, one)? {
            Ok(fragment) => found.push(fragment)?,
            Err(kind) => return Ok(Err(kind)),
        }
    }
    Ok(Ok(found))
}
