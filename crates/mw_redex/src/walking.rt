// The paths of a term, one by one.
ghost use Rattle.std.specs.Prelude.{◌≡◌, ◌∷◌, ◌++◌, [], map, IfOk, OnErr, MatchOption};
ghost use Rattle.mw_redex.specs.Paths.{paths};
ghost use Rattle.mw_redex.specs.Waiting.{way_of, ways_on, to_come};

use mw_term::{Seq, Term, number_at};
use std::alloc::{AllocError, Global};
use std::collections::VecDeque;
use std::marker::Model;

/// A path, and what stands at its end.
#[derive(Drop)]
struct Spot<'t> {
    path: Seq<u32>,
    term: &'t Term,
}

/// The paths of a term, breadth first: the numbers of arguments, from 1, on the way to each of its parts. Contracts see
/// the list of those that are still to come.
#[derive(Drop)]
pub struct Places<'t> {
    alloc: Global,
    waiting: VecDeque<Spot<'t>>,
}

impl<'t> Model for Places<'t> {
    ghost use Rattle.std.specs.Prelude.{List, ℕ, map};

    ghost Value = { List (List ℕ) };

    ghost use Rattle.mw_redex.specs.Waiting.{way_of, to_come};

    ghost view = { λ p. to_come (map way_of p.waiting.items) };
}

impl<'t> Places<'t> {
    /// All paths of a term.
    pub fn new(alloc: Global, term: &'t Term) -> Result<Places<'t>, AllocError>
        ensures { IfOk result (λ ps. ps ≡ paths term.now) }
    {
        let path = Seq::of(Vec::new(alloc));
        let mut waiting = VecDeque::new(alloc);
        waiting.push_back(Spot { path, term })?;
        Ok(Places { alloc, waiting })
    }

    /// The next path.
    pub fn next(&mut self) -> Result<Option<Vec<u32>>, AllocError>
        ensures ok { IfOk result (λ o. MatchOption o (self.old ≡ [] × self.new ≡ []) (λ p. self.old ≡ p.items ∷ self.new)) }
        ensures err { OnErr result (self.new ≡ self.old) }
    {
        match take_first(self.alloc, &mut self.waiting)? {
            Some(path) => Ok(Some(path.into_vec())),
            None => Ok(None),
        }
    }
}

/// Takes the first of the paths that wait, and puts the ways on from its end behind the others.
fn take_first(
    alloc: Global,
    waiting: &mut VecDeque<Spot<'_>>,
) -> Result<Option<Seq<u32>>, AllocError>
    ensures ok { IfOk result (λ o. MatchOption o (waiting.old.items ≡ [] × waiting.new.items ≡ []) (λ p. to_come (map way_of waiting.old.items) ≡ p ∷ to_come (map way_of waiting.new.items))) }
    ensures err { OnErr result (waiting.new.items ≡ waiting.old.items) }
{
    let Some(first) = waiting.front() else {
        return Ok(None);
    };
    let mut more = spots_on(alloc, first)?;
    waiting.append(&mut more)?;
    match waiting.pop_front() {
        Some(first) => {
            let Spot { path, term: _ } = first;
            Ok(Some(path))
        }
        None => Ok(None),
    }
}

/// The arguments of what stands at the end of a path, each with its own path.
fn spots_on<'t>(alloc: Global, spot: &Spot<'t>) -> Result<VecDeque<Spot<'t>>, AllocError>
    ensures { IfOk result (λ found. map way_of found.items ≡ ways_on (way_of spot.now)) }
{
    let args = spot.term.arguments();
    let mut found = VecDeque::with_capacity(alloc, args.len())?;
    for (i, term) in args.iter().enumerate() {
        let number = number_at(i)?;
        let path = longer(alloc, spot.path.as_slice(), number)?;
        found.push_back(Spot { path, term })?;
    }
    Ok(found)
}

/// A path with one number more.
fn longer(alloc: Global, path: &[u32], number: u32) -> Result<Seq<u32>, AllocError>
    ensures { IfOk result (λ p. p ≡ path.now ++ number ∷ []) }
{
    let mut numbers = Vec::with_capacity(alloc, path.len() + 1)?;
    numbers.extend_from_slice(path)?;
    numbers.push(number)?;
    Ok(Seq::of(numbers))
}
