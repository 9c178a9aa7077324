// Terms, each with a number by which most are told apart.
ghost use Rattle.mw_chart.specs.Hash.{hash_of, mixed};
ghost use Rattle.std.specs.Prelude.{◌≡◌};

use crate::node::Node;
use std::alloc::{AllocError, Global};
use std::marker::Model;

/// Two numbers, mixed.
fn mix(a: u64, b: u64) -> u64
    ensures { result ≡ mixed a b }
{
    (a.wrapping_mul(11400714819323198485) ^ b).wrapping_mul(14029467366897019727)
}

/// A leaf, or an operator applied to one argument after another.
#[derive(Drop)]
pub struct Tree {
    node: Node,
    hash: u64,
    ghost hashed: { hash ≡ hash_of node },
}

impl Model for Tree {
    ghost use Rattle.mw_chart.specs.Tree.{Tree, coded_tree};

    ghost Value = { Tree };

    ghost coded = { coded_tree };

    ghost view = { λ a. a.node };
}

impl Tree {
    ghost use Rattle.std.specs.Prelude.{◌↔◌, IfOk, IsTrue};
    ghost use Rattle.mw_chart.specs.Tree.{leaf, head, app};

    /// The tree by itself, without its number.
    pub fn node(&self) -> &Node
        ensures { result.now ≡ self.now }
    {
        &self.node
    }

    /// What a token spells by itself.
    pub fn leaf(alloc: Global, x: u32) -> Result<Tree, AllocError>
        ensures { IfOk result (λ t. t ≡ leaf x) }
    {
        let node = Node::leaf(alloc, x)?;
        let hash = mix(1, x as u64);
        Ok(Tree { node, hash })
    }

    /// An operator with no argument yet.
    pub fn head(alloc: Global, f: u32) -> Result<Tree, AllocError>
        ensures { IfOk result (λ t. t ≡ head f) }
    {
        let node = Node::head(alloc, f)?;
        let hash = mix(2, f as u64);
        Ok(Tree { node, hash })
    }

    /// The same tree once more.
    pub fn again(&self) -> Result<Tree, AllocError>
        ensures { IfOk result (λ t. t ≡ self.now) }
    {
        let node = self.node.again()?;
        let hash = self.hash;
        Ok(Tree { node, hash })
    }

    /// This tree with one argument more.
    pub fn with(&self, alloc: Global, last: &Tree) -> Result<Tree, AllocError>
        ensures { IfOk result (λ t. t ≡ app self.now last.now) }
    {
        let node = self.node.with(alloc, &last.node)?;
        let hash = mix(self.hash, last.hash);
        Ok(Tree { node, hash })
    }

    /// Whether two trees are the same.
    pub fn same(&self, other: &Tree) -> bool
        ensures { IsTrue result ↔ (self.now ≡ other.now) }
    {
        self.hash == other.hash && self.node.same(&other.node)
    }
}
