// Lists of declarations that are still alive, each with a number.
ghost use Rattle.std.specs.Prelude.{ℕ, List, ◌≡◌, ◌⊎◌, ◌<◌, [], length, slice_get, IfOk, OnOk};
ghost use Rattle.mw_logic.specs.Signature.{Declaration as DeclarationOf};
ghost use Rattle.mw_sorts.specs.States.{AreStatesOf, AreNumbersOf, AreKept};

use indexmap::IndexSet;
use std::alloc::{AllocError, Global};
use std::marker::Model;

/// Lists, each once, numbered from 0 in order of first mention.
#[derive(Drop)]
pub struct States {
    lists: IndexSet<Vec<usize>>,
}

impl Model for States {
    ghost use Rattle.std.specs.Prelude.{List, ℕ, map};
    ghost use Rattle.std.specs.Global.{Vec};

    ghost Value = { List (List ℕ) };

    ghost view = { λ s. map (λ (l : Vec ℕ). l.items) s.lists.keys };
}

impl States {
    pub fn new(alloc: Global) -> States
        ensures { result ≡ [] }
    {
        States {
            lists: IndexSet::new(alloc),
        }
    }

    pub fn len(&self) -> usize
        ensures { result ≡ length self.now }
    {
        self.lists.len()
    }

    pub fn get(&self, number: usize) -> &[usize]
        requires { number < length self.now }
        ensures { slice_get self.now number ≡ Some result.now }
    {
        self.lists.as_slice()[number].as_slice()
    }

    /// The number of a list, which is there from now on.
    pub fn number(&mut self, alive: Vec<usize>) -> Result<usize, AllocError>
        ensures kept { OnOk result (AreKept self.old self.new) }
        ensures number { IfOk result (λ q. slice_get self.new q ≡ Some alive.items) }
        ensures only { OnOk result ((q : ℕ) (l : List ℕ) → slice_get self.new q ≡ Some l → (slice_get self.old q ≡ Some l) ⊎ (l ≡ alive.items)) }
        ensures states { OnOk result ((ds : List DeclarationOf) → AreStatesOf ds self.old → AreNumbersOf ds alive.items → AreStatesOf ds self.new) }
    {
        let (number, _is_new) = self.lists.insert_full(alive)?;
        Ok(number)
    }
}
