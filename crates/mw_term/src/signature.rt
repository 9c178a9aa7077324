// Signatures: sorts, subsort pairs, operators with their declarations and axioms.
ghost use Rattle.std.specs.Prelude.{◌≡◌};

use crate::{KindId, Name, OpId, Seq, SortId};
use std::marker::Model;

/// A sort, or a kind.
#[derive(Clone, Copy, Debug, PartialEq, Eq)]
pub enum Sorted {
    Sort(SortId),
    Kind(KindId),
}

/// What `id:` names: a constant, or a numeral.
#[derive(Clone, Copy, Debug, PartialEq, Eq)]
pub enum Identity {
    Constant(OpId),
    Nat(u128),
}

/// Which precedence a hole of a mixfix name takes: one below the operator's (`e`), at most that (`E`), or any (`&`).
#[derive(Clone, Copy, Debug, PartialEq, Eq)]
pub enum Gather {
    Less,
    Most,
    Any,
}

/// The sorts of an operator's arguments and of its result.
#[derive(Drop)]
pub struct Declaration {
    pub args: Seq<Sorted>,
    pub result: Sorted,
}

impl Model for Declaration {
    ghost use Rattle.std.specs.Prelude.{map};
    ghost use Rattle.std.specs.Coded.{codes};
    ghost use Rattle.mw_logic.specs.Signature.{Declaration as DeclarationOf};

    ghost Value = { DeclarationOf };

    ghost use Rattle.mw_term.specs.Signatures.{sorted_of};

    ghost view = { λ d. record { args = map sorted_of d.args; result = sorted_of d.result } };
}

/// A name with the kinds of its arguments and of its result, its declarations and its attributes.
#[derive(Drop)]
pub struct Operator {
    /// Its prefix spelling.
    pub spelling: Name,
    pub args: Seq<KindId>,
    pub result: KindId,
    pub declarations: Seq<Declaration>,
    pub assoc: bool,
    pub comm: bool,
    pub identity: Option<Identity>,
    /// From 0 to 127.
    pub prec: u32,
    /// One for each hole.
    pub gather: Seq<Gather>,
    pub config: bool,
    /// The arguments in which no rule applies, numbered from 1.
    pub frozen: Seq<u32>,
    /// One that each kind has from the start.
    pub built: bool,
}

impl Model for Operator {
    ghost use Rattle.std.specs.Prelude.{map, option_map};
    ghost use Rattle.mw_logic.specs.Signature.{Operator as OperatorOf};

    ghost Value = { OperatorOf };

    ghost use Rattle.mw_term.specs.Signatures.{identity_of, gather_of};

    ghost view = { λ o. record { spelling = o.spelling; args = o.args; result = o.result; declarations = o.declarations; assoc = o.assoc; comm = o.comm; identity = option_map identity_of o.identity; prec = o.prec; gather = map gather_of o.gather; config = o.config; frozen = o.frozen; built = o.built } };
}

/// Sorts, subsort pairs and operators, each numbered from 1 in the order in which they stand.
#[derive(Drop)]
pub struct Signature {
    pub sorts: Seq<Name>,
    /// A sort and one that it is directly below.
    pub pairs: Seq<(SortId, SortId)>,
    pub operators: Seq<Operator>,
    /// Whether numerals are terms.
    pub nat: bool,
    /// Whether quoted identifiers are terms.
    pub qid: bool,
}

impl Model for Signature {
    ghost use Rattle.mw_logic.specs.Signature.{Signature as SignatureOf};

    ghost Value = { SignatureOf };

    ghost view = { λ s. record { sorts = s.sorts; pairs = s.pairs; operators = s.operators; nat = s.nat; qid = s.qid } };
}
