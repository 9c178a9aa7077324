// The axioms of operators, looked up by number.
ghost use Rattle.std.specs.Prelude.{◌≡◌, IfOk};
ghost use Rattle.mw_logic.specs.Accepted.{IsAccepted};
ghost use Rattle.mw_logic.specs.Preregular.{HasItsSorts};
ghost use Rattle.mw_poset.specs.SortOrder.{order_of};

use crate::rows::rows;
use mw_poset::Poset;
use mw_term::{Identity, OpId, Signature, numbered};
use std::alloc::{AllocError, Global};
use std::marker::Model;

/// The axioms of an operator.
#[derive(Clone, Copy, Debug, PartialEq, Eq)]
pub enum Axioms {
    /// None.
    Plain,
    /// It is commutative alone.
    Commutative,
    /// It is the successor `s_` of numbers.
    Successor,
    /// It is associative, and maybe commutative and with an identity.
    Associative {
        comm: bool,
        identity: Option<Identity>,
    },
}

/// A signature that is accepted, with its operators' axioms in a table. Contracts see the signature.
#[derive(Drop)]
pub struct Facts {
    signature: Signature,
    rows: Vec<Axioms>,
}

impl Model for Facts {
    ghost use Rattle.mw_logic.specs.Signature.{Signature as SignatureOf};

    ghost Value = { SignatureOf };

    ghost view = { λ f. f.signature };

    ghost use Rattle.mw_logic.specs.Accepted.{IsAccepted};
    ghost use Rattle.mw_canon.specs.Axioms.{AreRowsOf};

    ghost invariant = { λ f. IsAccepted f.signature × AreRowsOf f.signature f.rows.items };
}

impl Facts {
    ghost use Rattle.mw_canon.specs.Axioms.{HasAxioms};

    /// The facts of a signature whose sorts are in this order. They are found once, in one walk over its sorts and one
    /// over its operators.
    pub fn of(alloc: Global, signature: Signature, order: &Poset) -> Result<Facts, AllocError>
        requires accepted { IsAccepted signature }
        requires sorts { HasItsSorts signature }
        requires order { order.now ≡ order_of signature }
        ensures { IfOk result (λ f. f ≡ signature) }
    {
        let rows = rows(alloc, &signature, order)?;
        Ok(Facts { signature, rows })
    }

    /// The signature.
    pub fn signature(&self) -> &Signature
        ensures { result.now ≡ self.now }
    {
        &self.signature
    }

    /// The signature is accepted.
    pub fn shows(&self)
        ensures { IsAccepted self.now }
    {
        let _ = &self.signature;
    }

    /// The axioms of an operator, by one look-up. What is no operator has none.
    pub fn axioms(&self, operator: OpId) -> Axioms
        ensures { HasAxioms self.now operator result }
    {
        match numbered(self.rows.as_slice(), operator) {
            Some(row) => *row,
            None => Axioms::Plain,
        }
    }
}
