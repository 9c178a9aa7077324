// Names, numbered in order of first mention.
ghost use Rattle.std.specs.Prelude.{◌≡◌, ◌-◌, ◌<◌, ◌≤◌, ◌+◌, List, [], length, IfOk, OnOk, Some, position, bytes_eq};
ghost use Rattle.mw_logic.specs.Signature.{at_number};
ghost use Rattle.mw_text.specs.Interned.{is_among, with_name, number_of};

use indexmap::IndexSet;
use mw_term::{Name, Seq};
use std::alloc::{AllocError, Global};
use std::marker::Model;

/// Names, each once, in order of first mention.
#[derive(Drop)]
pub struct Names {
    set: Box<IndexSet<Vec<u8>>>,
}

impl Model for Names {
    ghost use Rattle.std.specs.Prelude.{List, ℕ, map};
    ghost use Rattle.std.specs.Global.{Vec};

    ghost Value = { List (List ℕ) };

    ghost view = { λ m. map (λ (n : Vec ℕ). n.items) m.set.value.keys };
}

impl Names {
    pub fn new(alloc: Global) -> Result<Names, AllocError>
        ensures { IfOk result (λ names. names ≡ []) }
    {
        let set = Box::new(alloc, IndexSet::new(alloc))?;
        Ok(Names { set })
    }

    /// Adds a name behind the others, unless it is there.
    pub fn add(&mut self, alloc: Global, name: &[u8]) -> Result<(), AllocError>
        ensures { OnOk result (self.new ≡ with_name self.old name.now) }
    {
        self.set.insert(name.to_vec(alloc)?)?;
        Ok(())
    }

    /// Whether the name is there.
    pub fn has(&self, name: &[u8]) -> bool
        ensures { result ≡ is_among self.now name.now }
    {
        self.set.contains(name)
    }

    /// How many names come before this one, if it is there.
    fn place(&self, name: &[u8]) -> Option<usize>
        ensures { result ≡ position (bytes_eq name.now) self.now }
    {
        self.set.get_index_of(name)
    }

    /// The name's number, from 1, or 0 where it isn't there. More names than numbers can tell count as want of
    /// memory.
    pub fn number(&self, name: &[u8]) -> Result<u32, AllocError>
        ensures { IfOk result (λ n. n ≡ number_of self.now name.now) }
    {
        match self.place(name) {
            None => Ok(0),
            Some(place) if place < u32::MAX as usize => Ok(place as u32 + 1),
            Some(_) => Err(AllocError),
        }
    }

    /// How many names there are. More than numbers can tell count as want of memory.
    pub fn count(&self) -> Result<u32, AllocError>
        ensures { IfOk result (λ n. n ≡ length self.now) }
    {
        let count = self.set.len();
        if count > u32::MAX as usize {
            return Err(AllocError);
        }
        Ok(count as u32)
    }

    /// The name of a number.
    pub fn name(&self, number: u32) -> &[u8]
        requires first { 1 ≤ number }
        requires last { number ≤ length self.now }
        ensures { at_number self.now number ≡ Some result.now }
    {
        self.set.as_slice()[(number - 1) as usize].as_slice()
    }

    /// All names in order.
    pub fn list(&self, alloc: Global) -> Result<Seq<Name>, AllocError>
        ensures { IfOk result (λ names. names ≡ self.now) }
    {
        let mut list = Vec::new(alloc);
        for name in self.set.as_slice() {
            list.push(Name::of(name.as_slice().to_vec(alloc)?))?;
        }
        Ok(Seq::of(list))
    }
}
