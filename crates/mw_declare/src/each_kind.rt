// The operators that each kind has: a choice by a truth value, and two tests.
ghost use Rattle.std.specs.Prelude.{◌≡◌, [], IfOk};
ghost use Rattle.mw_module.specs.Attributes.{seen_attributes};
ghost use Rattle.mw_declare.specs.Operators.{choice_of, test_of, said_precedence as said_alone};
ghost use Rattle.mw_declare.specs.Operators.{is_test_of, is_choice_of, is_built as is_built_in};
ghost use Rattle.mw_declare.specs.Seen.{seen_profile};

use crate::built::Truth;
use crate::operators::Profile;
use mw_module::Attributes;
use mw_term::{Declaration, KindId, Seq, Sorted};
use std::alloc::{AllocError, Global};

/// The profile of the choice between two terms of a kind.
pub fn choice_profile(alloc: Global, truth: Truth, kind: KindId) -> Result<Profile, AllocError>
    ensures { IfOk result (λ p. seen_profile p ≡ (choice_of truth kind).profile) }
{
    Ok(Profile {
        spelling: b"if_then_else_fi".as_slice().to_vec(alloc)?,
        args: vec![in alloc; truth.kind, kind, kind]?,
        result: kind,
    })
}

/// Its declaration.
pub fn choice_declaration(
    alloc: Global,
    truth: Truth,
    kind: KindId,
) -> Result<Declaration, AllocError>
    ensures { IfOk result (λ d. d ≡ (choice_of truth kind).declaration) }
{
    let branch = Sorted::Kind(kind);
    Ok(Declaration {
        args: Seq::of(vec![in alloc; Sorted::Kind(truth.kind), branch, branch]?),
        result: branch,
    })
}

/// The profile of the test of this name on two terms of a kind.
pub fn test_profile(
    alloc: Global,
    truth: Truth,
    name: &[u8],
    kind: KindId,
) -> Result<Profile, AllocError>
    ensures { IfOk result (λ p. seen_profile p ≡ (test_of truth name.now kind).profile) }
{
    Ok(Profile {
        spelling: name.to_vec(alloc)?,
        args: vec![in alloc; kind, kind]?,
        result: truth.kind,
    })
}

/// Its declaration.
pub fn test_declaration(
    alloc: Global,
    truth: Truth,
    kind: KindId,
) -> Result<Declaration, AllocError>
    ensures { IfOk result (λ d. d ≡ (test_of truth [] kind).declaration) }
{
    Ok(Declaration {
        args: Seq::of(vec![in alloc; Sorted::Kind(kind), Sorted::Kind(kind)]?),
        result: Sorted::Sort(truth.sort),
    })
}

/// What is said of an operator of which the precedence alone is said.
pub fn said_precedence<'s>(alloc: Global, precedence: u32) -> Attributes<'s>
    ensures { seen_attributes result ≡ said_alone precedence }
{
    let mut said = Attributes::none(alloc);
    said.precedence = Some(precedence);
    said
}

/// Whether a profile is that of a test that some kind has.
fn is_test(truth: Truth, profile: &Profile) -> bool
    ensures { result ≡ is_test_of truth (seen_profile profile.now) }
{
    let spelling = profile.spelling.as_slice();
    let named = spelling == b"_==_".as_slice() || spelling == b"_=/=_".as_slice();
    match profile.args.as_slice() {
        [first, second] => named && (first == second && profile.result == truth.kind),
        _ => false,
    }
}

/// Whether a profile is that of a choice that some kind has.
fn is_choice(truth: Truth, profile: &Profile) -> bool
    ensures { result ≡ is_choice_of truth (seen_profile profile.now) }
{
    let named = profile.spelling.as_slice() == b"if_then_else_fi".as_slice();
    match profile.args.as_slice() {
        [test, first, second] => {
            let kind = profile.result;
            named && (*test == truth.kind && (*first == kind && *second == kind))
        }
        _ => false,
    }
}

/// Whether a profile is that of an operator that some kind has.
pub fn is_built(truth: Option<Truth>, profile: &Profile) -> bool
    ensures { result ≡ is_built_in truth (seen_profile profile.now) }
{
    match truth {
        Some(truth) => is_test(truth, profile) || is_choice(truth, profile),
        None => false,
    }
}
