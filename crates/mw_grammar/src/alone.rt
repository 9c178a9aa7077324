// Terms that tokens are by themselves.
ghost use Rattle.std.specs.Prelude.{◌≡◌, [], IfOk, OnOk, Some, option_map, slice_get};
ghost use Rattle.mw_grammar.specs.AloneTerms.{alone_term};
ghost use Rattle.mw_grammar.specs.Compiled.{Extends};
ghost use Rattle.mw_grammar.specs.Worded.{AllDiffer};

use indexmap::IndexSet;
use mw_term::SortId;
use std::alloc::{AllocError, Global};
use std::marker::Model;

/// A term that a token is by itself.
#[derive(PartialEq, Eq, Hash, Drop)]
pub enum Alone {
    /// A numeral.
    Number(u128),
    /// A quoted identifier, with its apostrophe.
    Identifier(Vec<u8>),
    /// A variable.
    Variable { name: Vec<u8>, sort: SortId },
}

impl Alone {
    fn copy(&self, alloc: Global) -> Result<Alone, AllocError>
        ensures { IfOk result (λ term. alone_term term ≡ alone_term self.now) }
    {
        match self {
            Alone::Number(number) => Ok(Alone::Number(*number)),
            Alone::Identifier(token) => Ok(Alone::Identifier(token.as_slice().to_vec(alloc)?)),
            Alone::Variable { name, sort } => {
                let name = name.as_slice().to_vec(alloc)?;
                let sort = *sort;
                Ok(Alone::Variable { name, sort })
            }
        }
    }
}

/// Terms that tokens are, each once, in order of first mention.
#[derive(Drop)]
pub struct Leaves {
    set: Box<IndexSet<Alone>>,
}

impl Model for Leaves {
    ghost use Rattle.std.specs.Prelude.{List, map};
    ghost use Rattle.std.specs.Coded.{codes};
    ghost use Rattle.mw_logic.specs.Term.{RawTerm};
    ghost use Rattle.mw_logic.specs.TermCode.{coded_term};
    ghost use Rattle.mw_grammar.specs.AloneTerms.{alone_term};

    ghost Value = { List RawTerm };

    ghost coded = { Prim.hlevel (codes, coded_term) };

    ghost view = { λ m. map alone_term m.set.value.keys };
}

impl Leaves {
    pub(crate) fn new(alloc: Global) -> Result<Leaves, AllocError>
        ensures { IfOk result (λ leaves. leaves ≡ []) }
    {
        let set = Box::new(alloc, IndexSet::new(alloc))?;
        Ok(Leaves { set })
    }

    /// Adds a term behind the others, unless it is there, and tells its place.
    pub(crate) fn meet(&mut self, term: Alone) -> Result<u32, AllocError>
        ensures leaves { OnOk result (Extends self.old self.new) }
        ensures differ { OnOk result (AllDiffer self.old → AllDiffer self.new) }
        ensures place { IfOk result (λ k. slice_get self.new k ≡ Some (alone_term term)) }
    {
        let (place, _is_new) = self.set.insert_full(term)?;
        if place > u32::MAX as usize {
            return Err(AllocError);
        }
        Ok(place as u32)
    }

    /// The term at a place, if there is one.
    pub fn at(&self, alloc: Global, place: usize) -> Result<Option<Alone>, AllocError>
        ensures { IfOk result (λ o. option_map alone_term o ≡ slice_get self.now place) }
    {
        match self.set.get_index(place) {
            Some(term) => Ok(Some(term.copy(alloc)?)),
            None => Ok(None),
        }
    }
}
