// Where variables stand.
ghost use Rattle.std.specs.Prelude.{◌≡◌, ◌<◌, ◌++◌, List, [], IfOk, OnOk, OnErr, IsTrue, Some, length, slice_get};
ghost use Rattle.mw_logic.specs.Term.{Variable, variable as a_variable};
ghost use Rattle.mw_position.specs.Variables.{is_in, AreDistinct, place, met, sorts_of};
ghost use Rattle.mw_term.specs.Raws.{raw_term};

use mw_term::{Raw, Seq, SortId, VarId};
use std::alloc::{AllocError, Global};
use std::collections::HashMap;
use std::marker::Model;

/// Variables in order, each once, with a table of their positions. Contracts see the variables.
#[derive(Drop)]
pub struct Places<'a> {
    variables: Vec<&'a VarId>,
    table: HashMap<(&'a [u8], SortId), usize>,
}

impl<'a> Model for Places<'a> {
    ghost use Rattle.std.specs.Prelude.{List};
    ghost use Rattle.mw_logic.specs.Term.{Variable};

    ghost Value = { List Variable };

    ghost use Rattle.mw_pattern.specs.Tables.{HasPlaces, pointed};

    ghost view = { λ p. pointed p.variables.items };

    ghost invariant = { λ p. HasPlaces (pointed p.variables.items) p.table };
}

impl<'a> Places<'a> {
    /// The positions of these variables.
    pub fn new(alloc: Global, variables: &'a [VarId]) -> Result<Places<'a>, AllocError>
        requires { AreDistinct variables.now }
        ensures { IfOk result (λ p. p ≡ variables.now) }
    {
        let mut places = Places::none(alloc);
        for x in variables {
            places.meet(x)?;
        }
        Ok(places)
    }

    /// No variables.
    pub fn none(alloc: Global) -> Places<'a>
        ensures { result ≡ [] }
    {
        Places {
            variables: Vec::new(alloc),
            table: HashMap::new(alloc),
        }
    }

    /// Puts a variable behind the others, if it isn't one of them.
    pub fn meet(&mut self, x: &'a VarId) -> Result<(), AllocError>
        ensures ok { OnOk result (self.new ≡ met self.old (a_variable x.now)) }
        ensures err { OnErr result (self.new ≡ self.old) }
    {
        let key = (x.name.as_slice(), x.sort);
        if self.table.contains_key(&key) {
            return Ok(());
        }
        let place = self.variables.len();
        self.variables.push(x)?;
        if let Err(full) = self.table.insert(key, place) {
            self.variables.pop();
            return Err(full.into());
        }
        Ok(())
    }

    /// How many variables there are.
    pub fn len(&self) -> usize
        ensures { result ≡ length self.now }
    {
        self.variables.len()
    }

    /// The variable of this position.
    pub fn variable(&self, place: usize) -> &VarId
        requires { place < length self.now }
        ensures { slice_get self.now place ≡ Some result.now }
    {
        self.variables[place]
    }

    /// The sorts of the variables, in order.
    pub fn sorts(&self, alloc: Global) -> Result<Seq<SortId>, AllocError>
        ensures { IfOk result (λ s. s ≡ sorts_of self.now) }
    {
        let mut sorts = Vec::with_capacity(alloc, self.len())?;
        for i in 0..self.len() {
            sorts.push(self.variable(i).sort)?;
        }
        Ok(Seq::of(sorts))
    }

    /// How many of the variables stand before this one.
    pub fn at(&self, x: &VarId) -> usize
        requires { IsTrue (is_in x.now self.now) }
        ensures { result ≡ place x.now self.now }
    {
        match self.table.get(&(x.name.as_slice(), x.sort)) {
            Some(i) => *i,
            None => unreachable!(),
        }
    }
}

/// Meets the variables of a term, from the left. Where memory is wanting, those that were met so far stand behind the
/// places that were there.
pub fn meet_all<'a>(places: &mut Places<'a>, term: &'a Raw) -> Result<(), AllocError>
    ensures met { OnOk result (places.new ≡ met places.old (raw_term term.now)) }
    ensures kept { OnErr result ((xs : List Variable) × (places.new ≡ places.old ++ xs)) }
{
    match term {
        Raw::Var(x) => places.meet(x),
        Raw::Op(_, args) => {
            let mut rest = args.as_slice();
            while let [arg, after @ ..] = rest {
                meet_all(places, arg)?;
                rest = after;
            }
            Ok(())
        }
        _ => Ok(()),
    }
}
