// Terms, from the chart's trees.
ghost use Rattle.std.specs.Prelude.{◌≡◌, [], IfOk};
ghost use Rattle.mw_term.specs.Raws.{raw_term};
ghost use Rattle.mw_grammar.specs.AloneTerms.{alone_term};
ghost use Rattle.mw_grammar.specs.Meaning.{term_of, leaf_at};
ghost use Rattle.std.specs.List.{slice_get};
ghost use Rattle.mw_parse.specs.Tops.{IsTop};

use mw_chart::{Node, TreeTop};
use mw_grammar::{Alone, Leaves};
use mw_term::{Name, OpId, Raw, Raws, VarId};
use std::alloc::{AllocError, Global};

/// What stands on top of a term.
#[derive(Drop)]
pub enum Top {
    Operator(OpId),
    Leaf(Alone),
}

/// The term at a place; a variable without a name, where there is none.
fn leaf(alloc: Global, leaves: &Leaves, place: u32) -> Result<Alone, AllocError>
    ensures { IfOk result (λ term. alone_term term ≡ leaf_at (slice_get leaves.now place)) }
{
    match leaves.at(alloc, place as usize)? {
        Some(found) => Ok(found),
        None => Ok(Alone::Variable {
            name: Vec::new(alloc),
            sort: 0,
        }),
    }
}

/// A token's term as it is written.
fn written(term: Alone) -> Raw
    ensures { raw_term result ≡ alone_term term }
{
    match term {
        Alone::Number(number) => Raw::Nat(number),
        Alone::Identifier(token) => Raw::Qid(Name::of(token)),
        Alone::Variable { name, sort } => {
            let name = Name::of(name);
            Raw::Var(VarId { name, sort })
        }
    }
}

/// What stands on top of a tree's term, whose arguments are put into an empty list.
#[cycle(terms)]
fn spine(
    alloc: Global,
    node: &Node,
    leaves: &Leaves,
    args: &mut Vec<Raw>,
) -> Result<Top, AllocError>
    requires { args.old.items ≡ [] }
    ensures { IfOk result (λ top. IsTop top args.new.items (term_of leaves.now node.now)) }
{
    match node.top() {
        TreeTop::Leaf(place) => Ok(Top::Leaf(leaf(alloc, leaves, place)?)),
        TreeTop::Head(operator) => Ok(Top::Operator(operator)),
        TreeTop::App(first, last) => {
            let top = spine(alloc, first, leaves, args)?;
            let last = raw(alloc, last, leaves)?;
            args.push(last)?;
            Ok(top)
        }
    }
}

/// The term of a tree.
#[cycle(terms)]
pub fn raw(alloc: Global, node: &Node, leaves: &Leaves) -> Result<Raw, AllocError>
    ensures { IfOk result (λ t. raw_term t ≡ term_of leaves.now node.now) }
{
    let mut args = Vec::new(alloc);
    match spine(alloc, node, leaves, &mut args)? {
        Top::Operator(operator) => Ok(Raw::Op(operator, Raws::of(args))),
        Top::Leaf(term) => Ok(written(term)),
    }
}
