// Variables in order of first mention.
ghost use Rattle.std.specs.Prelude.{◌≡◌, [], IfOk, OnOk};
ghost use Rattle.mw_text.specs.Mentions.{seen_key, is_met, with_variable, missing_in};

use indexmap::IndexSet;
use mw_term::{Name, Seq, SortId, VarId};
use std::alloc::{AllocError, Global};
use std::marker::Model;

/// A variable as it is looked up.
#[derive(PartialEq, Eq, Hash, Drop)]
pub struct Key {
    pub name: Vec<u8>,
    pub sort: SortId,
}

/// The variable of a key.
fn variable_of(alloc: Global, key: &Key) -> Result<VarId, AllocError>
    ensures { IfOk result (λ x. x ≡ seen_key key.now) }
{
    let name = Name::of(key.name.as_slice().to_vec(alloc)?);
    let sort = key.sort;
    Ok(VarId { name, sort })
}

/// Variables, each once, in order of first mention.
#[derive(Drop)]
pub struct Variables {
    set: Box<IndexSet<Key>>,
}

impl Model for Variables {
    ghost use Rattle.std.specs.Prelude.{List, map};
    ghost use Rattle.std.specs.Coded.{codes};
    ghost use Rattle.mw_logic.specs.Term.{Variable};
    ghost use Rattle.mw_logic.specs.TermCode.{coded_variable};
    ghost use Rattle.mw_text.specs.Mentions.{seen_key};

    ghost Value = { List Variable };

    ghost coded = { Prim.hlevel (codes, coded_variable) };

    ghost view = { λ m. map seen_key m.set.value.keys };
}

impl Variables {
    pub fn new(alloc: Global) -> Result<Variables, AllocError>
        ensures { IfOk result (λ variables. variables ≡ []) }
    {
        let set = Box::new(alloc, IndexSet::new(alloc))?;
        Ok(Variables { set })
    }

    /// Adds a variable behind the others, unless it is there.
    pub fn meet(&mut self, alloc: Global, name: &[u8], sort: SortId) -> Result<(), AllocError>
        ensures variables { OnOk result (self.new ≡ with_variable self.old (record { name = name.now; sort = sort })) }
    {
        let name = name.to_vec(alloc)?;
        self.set.insert(Key { name, sort })?;
        Ok(())
    }

    /// Whether a variable is there.
    fn has(&self, key: &Key) -> bool
        ensures { result ≡ is_met self.now (seen_key key.now) }
    {
        self.set.contains(key)
    }

    /// The first of these variables that others haven't.
    pub fn missing_in(&self, alloc: Global, others: &Variables) -> Result<Option<VarId>, AllocError>
        ensures { IfOk result (λ o. o ≡ missing_in others.now self.now) }
    {
        let mut rest = self.set.as_slice();
        while let [key, after @ ..] = rest {
            if !others.has(key) {
                return Ok(Some(variable_of(alloc, key)?));
            }
            rest = after;
        }
        Ok(None)
    }

    /// All variables in order.
    pub fn list(&self, alloc: Global) -> Result<Seq<VarId>, AllocError>
        ensures { IfOk result (λ variables. variables ≡ self.now) }
    {
        let mut variables = Vec::new(alloc);
        let mut rest = self.set.as_slice();
        while let [key, after @ ..] = rest {
            variables.push(variable_of(alloc, key)?)?;
            rest = after;
        }
        Ok(Seq::of(variables))
    }
}
