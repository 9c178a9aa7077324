// Terms that share their parts, by themselves.
ghost use Rattle.std.specs.Prelude.{◌≡◌, ◌↔◌, IfOk, IsTrue};
ghost use Rattle.mw_chart.specs.Tree.{leaf, head, app};
ghost use Rattle.mw_chart.specs.Nodes.{tree_of};
ghost use Rattle.mw_chart.specs.Tops.{tree_of_top};

use std::alloc::{AllocError, Global};
use std::marker::Model;
use std::sync::Arc;

/// A leaf, or an operator applied to one argument after another.
#[derive(Drop)]
#[cycle(node)]
pub struct Node {
    kind: Arc<NodeKind>,
}

#[derive(Drop)]
#[cycle(node)]
enum NodeKind {
    Leaf(u32),
    Head(u32),
    App(Node, Node),
}

impl Model for Node {
    ghost use Rattle.mw_chart.specs.Tree.{Tree, coded_tree};

    ghost Value = { Tree };

    ghost coded = { coded_tree };

    ghost use Rattle.mw_chart.specs.Nodes.{tree_of};

    ghost view = { λ a. tree_of a.kind.value };

    ghost use Rattle.mw_chart.specs.Tree.{size_of};

    ghost size = { size_of };

    ghost use Rattle.mw_chart.specs.Falls.{falls};

    ghost size_decreases = { λ a h. falls a.kind.value };
}

/// What stands on top of a tree.
#[derive(Clone, Copy)]
pub enum TreeTop<'t> {
    /// What a token spells by itself.
    Leaf(u32),
    /// An operator with no argument yet.
    Head(u32),
    /// A tree with one argument more.
    App(&'t Node, &'t Node),
}

impl Node {
    /// What stands on top.
    pub fn top(&self) -> TreeTop<'_>
        ensures { tree_of_top result ≡ self.now }
    {
        match &*self.kind {
            NodeKind::Leaf(x) => TreeTop::Leaf(*x),
            NodeKind::Head(f) => TreeTop::Head(*f),
            NodeKind::App(t, u) => TreeTop::App(t, u),
        }
    }

    fn of(alloc: Global, kind: NodeKind) -> Result<Node, AllocError>
        ensures { IfOk result (λ t. t ≡ tree_of kind) }
    {
        let kind = Arc::new(alloc, kind).map_err(AllocError::from)?;
        Ok(Node { kind })
    }

    /// What a token spells by itself.
    pub fn leaf(alloc: Global, x: u32) -> Result<Node, AllocError>
        ensures { IfOk result (λ t. t ≡ leaf x) }
    {
        Node::of(alloc, NodeKind::Leaf(x))
    }

    /// An operator with no argument yet.
    pub fn head(alloc: Global, f: u32) -> Result<Node, AllocError>
        ensures { IfOk result (λ t. t ≡ head f) }
    {
        Node::of(alloc, NodeKind::Head(f))
    }

    /// The same tree once more.
    pub fn again(&self) -> Result<Node, AllocError>
        ensures { IfOk result (λ t. t ≡ self.now) }
    {
        let kind = Arc::try_clone(&self.kind)?;
        Ok(Node { kind })
    }

    /// This tree with one argument more.
    pub fn with(&self, alloc: Global, last: &Node) -> Result<Node, AllocError>
        ensures { IfOk result (λ t. t ≡ app self.now last.now) }
    {
        let first = self.again()?;
        let last = last.again()?;
        Node::of(alloc, NodeKind::App(first, last))
    }

    pub fn same(&self, other: &Node) -> bool
        ensures { IsTrue result ↔ (self.now ≡ other.now) }
    {
        match (&*self.kind, &*other.kind) {
            (NodeKind::Leaf(x), NodeKind::Leaf(y)) => x == y,
            (NodeKind::Head(f), NodeKind::Head(g)) => f == g,
            (NodeKind::App(t, u), NodeKind::App(v, w)) => t.same(v) && u.same(w),
            _ => false,
        }
    }
}
