// Tables of terms.
ghost use Rattle.std.specs.Prelude.{◌≡◌, ◌<◌, [], drop, length, take, IfOk, OnOk, OnErr, IsTrue, ◌↔◌};
ghost use Rattle.std.specs.List.{Contains};
ghost use Rattle.mw_logic.specs.Term.{RawTerm, apply as applied};
ghost use Rattle.mw_logic.specs.Terms.{args_of, terms_of};
ghost use Rattle.mw_store.specs.Numbers.{AreBelow, Extends, HasNumber, IsOnce, Numbers, terms_at};

use crate::Node;
use crate::nodes::{Key, Nodes, narrow};
use mw_term::{OpId, Term, View};
use std::alloc::{AllocError, Global};
use std::marker::Model;
use std::slice;

/// Terms, each once, by number from 0. The arguments of each are among them, with lesser numbers.
#[derive(Drop)]
pub struct Table {
    nodes: Nodes,
}

impl Model for Table {
    ghost use Rattle.std.specs.Prelude.{List};
    ghost use Rattle.std.specs.Coded.{codes};
    ghost use Rattle.mw_logic.specs.Term.{RawTerm};
    ghost use Rattle.mw_logic.specs.TermCode.{coded_term};

    ghost Value = { List RawTerm };

    ghost coded = { Prim.hlevel (codes, coded_term) };

    ghost use Rattle.mw_store.specs.Tables.{all_terms, IsSound};

    ghost view = { λ t. all_terms t.nodes };

    ghost invariant = { λ t. IsSound t.nodes };
}

impl Table {
    /// No terms. It takes no memory.
    pub fn new(alloc: Global) -> Table
        ensures { result ≡ [] }
    {
        let nodes = Nodes::new(alloc);
        Table { nodes }
    }

    /// How many terms there are: their numbers are those below.
    pub fn len(&self) -> usize
        ensures is { result ≡ length self.now }
        ensures once { IsOnce self.now }
    {
        self.nodes.kept.len()
    }

    /// Whether there is none.
    pub fn is_empty(&self) -> bool
        ensures { IsTrue result ↔ (self.now ≡ []) }
    {
        self.nodes.kept.is_empty()
    }

    /// The number of an operator on terms that have these numbers. An old one is found in a time that goes with how
    /// many arguments there are, and a new one made of the arguments that are there.
    pub fn make(
        &mut self,
        alloc: Global,
        operator: OpId,
        arguments: &[Node],
    ) -> Result<Node, AllocError>
        requires { AreBelow (length self.old) arguments.now }
        ensures ok { IfOk result
            (Numbers self.old self.new (applied operator (terms_of (terms_at self.old arguments.now)))) }
        ensures err { OnErr result (self.new ≡ self.old) }
        ensures once { IsOnce self.new }
    {
        self.nodes.make(alloc, operator, arguments)
    }

    /// The same, where the arguments themselves stand in a list from a place on: they are taken out of it, and a new
    /// term is made of them. For want of memory the list may have lost them.
    pub fn make_behind(
        &mut self,
        alloc: Global,
        operator: OpId,
        arguments: &[Node],
        terms: &mut Vec<Term>,
        from: usize,
    ) -> Result<Node, AllocError>
        requires below { AreBelow (length self.old) arguments.now }
        requires are { terms_at self.old arguments.now ≡ drop from terms.old.items }
        ensures ok { IfOk result (Numbers self.old self.new (applied operator (terms_of (drop from terms.old.items)))) }
        ensures taken { OnOk result (terms.new.items ≡ take from terms.old.items) }
        ensures err { OnErr result (self.new ≡ self.old) }
        ensures once { IsOnce self.new }
    {
        self.nodes
            .make_behind(alloc, operator, arguments, terms, from)
    }

    /// The number of a term that comes from elsewhere, by a walk. What is new of it comes behind the others, parts
    /// before what they stand in; for want of memory some of the parts may have come.
    pub fn node_of(&mut self, alloc: Global, term: &Term) -> Result<Node, AllocError>
        ensures ok { IfOk result (HasNumber self.new term.now) }
        ensures known { OnOk result (Contains self.old term.now → self.new ≡ self.old) }
        ensures extends { Extends self.old self.new }
        ensures once { IsOnce self.new }
    {
        let mut waiting = Vec::new(alloc);
        self.nodes.walk(alloc, term, &mut waiting)
    }

    /// The number of a term of another table, where all terms before it have these numbers here.
    fn carry_one(
        &mut self,
        alloc: Global,
        other: &Table,
        node: Node,
        carried: &[Node],
    ) -> Result<Node, AllocError>
        requires inside { node < length other.now }
        requires below { AreBelow (length self.old) carried.now }
        requires carried { terms_at self.old carried.now ≡ take node other.now }
        ensures ok { IfOk result (λ n. (t : RawTerm) → HasNumber other.now t node → HasNumber self.new t n) }
        ensures extends { Extends self.old self.new }
    {
        let term = other.term(node);
        let View::Op(operator, _) = term.view() else {
            return self.node_of(alloc, term);
        };
        let mut numbers = Vec::new(alloc);
        for argument in other.arguments(node) {
            numbers.push(carried[*argument as usize])?;
        }
        self.make(alloc, operator, numbers.as_slice())
    }

    /// The numbers here of all terms of another table, in order. It takes a time that goes with how many terms and
    /// arguments the other has.
    pub fn carry(&mut self, alloc: Global, other: &Table) -> Result<Vec<Node>, AllocError>
        ensures ok { IfOk result (λ ns. terms_at self.new ns.items ≡ other.now) }
        ensures below { IfOk result (λ ns. AreBelow (length self.new) ns.items) }
        ensures extends { Extends self.old self.new }
    {
        let count = narrow(other.len())?;
        let mut carried = Vec::with_capacity(alloc, other.len())?;
        for node in 0..count {
            let number = self.carry_one(alloc, other, node, carried.as_slice())?;
            carried.push(number)?;
        }
        Ok(carried)
    }

    /// The term that has a number.
    pub fn term(&self, node: Node) -> &Term
        requires { node < length self.now }
        ensures { HasNumber self.now result.now node }
    {
        &self.nodes.kept[node as usize].term
    }

    /// The numbers of its arguments: none, where no operator is on top.
    pub fn arguments(&self, node: Node) -> &[Node]
        requires { node < length self.now }
        ensures are { (t : RawTerm) → HasNumber self.now t node → args_of t ≡ terms_of (terms_at self.now result.now) }
        ensures before { AreBelow node result.now }
    {
        match &self.nodes.kept[node as usize].key {
            Key::Leaf => &[],
            Key::One(_, only) => slice::from_ref(only),
            Key::Two(_, both) => both.as_slice(),
            Key::Many(_, from, to) => &self.nodes.arguments[*from as usize..*to as usize],
        }
    }
}
