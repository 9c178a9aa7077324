// Nodes: what stands on top of each term, with the numbers of its arguments.
ghost use Rattle.std.specs.Prelude.{◌≡◌, ◌<◌, ◌++◌, ◌↔◌, ℕ, List, [], ◌∷◌, length, drop, take, IfOk, OnErr, OnOk};
ghost use Rattle.std.specs.Prelude.{IsTrue};
ghost use Rattle.std.specs.List.{Contains};
ghost use Rattle.mw_logic.specs.Term.{apply as applied};
ghost use Rattle.mw_logic.specs.Terms.{terms_of};
ghost use Rattle.mw_store.specs.Slots.{AreReached, IsFree};
ghost use Rattle.mw_store.specs.Numbers.{AreBelow, Extends, HasNumber, Numbers, terms_at};
ghost use Rattle.mw_store.specs.Tables.{hashes_in, all_terms, HasKey, IsSought, is_leaf, terms_in, CanBeSought, Finds};
ghost use Rattle.mw_store.specs.Tables.{IsAt, IsKeyed, IsSound, sought_hash, sought_term};

use crate::hash::{hash_leaf, hash_node};
use crate::slots::{empty_slot, home, slot_at};
use mw_term::{OpId, Term, View, copy, number_at, same};
use std::alloc::{AllocError, Global};
use std::slice;

/// What stands on top of a term: nothing that has arguments, or an operator, with its arguments' numbers. Other than
/// one or two of them stand in the list of all arguments from a place on, up to another.
#[derive(Clone, Copy)]
pub(crate) enum Key {
    Leaf,
    One(OpId, u32),
    Two(OpId, [u32; 2]),
    Many(OpId, u32, u32),
}

/// A term, with its key and the key's hash.
#[derive(Drop)]
pub(crate) struct Kept {
    pub(crate) hash: u32,
    pub(crate) key: Key,
    pub(crate) term: Term,
}

const _: () = prove!(size_of::<Kept>() == 32);

/// The terms, the numbers of all arguments, and the slots in which terms are looked for; and room for the arguments of
/// a term that is made.
pub(crate) struct Nodes {
    pub(crate) kept: Vec<Kept>,
    pub(crate) arguments: Vec<u32>,
    pub(crate) slots: Vec<u32>,
    spare: Vec<Term>,
}

/// The last first: then each term's arguments are held still when it goes, and nothing recurs, however deep it is.
fn drop_from_last(kept: Vec<Kept>) {
    let mut kept = kept;
    while let Some(_) = kept.pop() {}
}

impl Drop for Nodes {
    fn drop(self) {
        let Nodes {
            kept,
            arguments: _,
            slots: _,
            spare: _,
        } = self;
        drop_from_last(kept);
    }
}

/// What is looked for: a term without arguments, or an operator on terms that have these numbers.
#[derive(Clone, Copy)]
pub(crate) enum Sought<'s> {
    Leaf(&'s Term),
    Node(OpId, &'s [u32]),
}

/// The number of what was looked for, or the slot where its number belongs.
#[derive(Clone, Copy)]
pub(crate) enum Seek {
    Old(u32),
    Free(usize),
    Full,
}

/// The same number, where it is below 2^32.
pub(crate) fn narrow(number: usize) -> Result<u32, AllocError>
    ensures { IfOk result (λ n. n ≡ number) }
{
    if number > u32::MAX as usize {
        return Err(AllocError);
    }
    Ok(number as u32)
}

/// The operator on the terms that have these numbers.
fn term_over(
    alloc: Global,
    kept: &[Kept],
    spare: &mut Vec<Term>,
    operator: OpId,
    arguments: &[u32],
) -> Result<Term, AllocError>
    requires { AreBelow (length kept.now) arguments.now }
    ensures { IfOk result (λ t. t ≡ applied operator (terms_of (terms_at (terms_in kept.now) arguments.now))) }
{
    spare.clear();
    for number in arguments {
        let term = copy(&kept[*number as usize].term)?;
        spare.push(term)?;
    }
    Term::apply_behind(alloc, operator, spare, 0)
}

/// So many slots, in which all terms are found.
fn slots_for(alloc: Global, kept: &[Kept], count: usize) -> Result<Vec<u32>, AllocError>
    ensures { IfOk result (λ s. AreReached s.items (hashes_in kept.now)) }
{
    let mut slots = vec![in alloc; 0; count]?;
    for index in 0..kept.len() {
        let hash = kept[index].hash;
        let Some(at) = empty_slot(slots.as_slice(), hash) else {
            return Err(AllocError);
        };
        slots[at] = number_at(index)?;
    }
    Ok(slots)
}

impl Sought<'_> {
    fn hash(&self) -> u32
        ensures { result ≡ sought_hash self.now }
    {
        match self {
            Sought::Leaf(term) => hash_leaf(term),
            Sought::Node(operator, arguments) => hash_node(*operator, arguments),
        }
    }

    /// Whether it is an operator on terms that have these numbers.
    #[inline(always)]
    fn is_node(&self, operator: OpId, numbers: &[u32]) -> bool
        ensures { IsTrue result ↔ IsSought self.now operator numbers.now }
    {
        match self {
            Sought::Leaf(_) => false,
            Sought::Node(wanted, others) => operator == *wanted && numbers == *others,
        }
    }
}

/// The key of an operator on terms that have these numbers.
fn key_of(arguments: &mut Vec<u32>, operator: OpId, numbers: &[u32]) -> Result<Key, AllocError>
    ensures ok { IfOk result (HasKey arguments.new.items operator numbers.now) }
    ensures more { (more : List ℕ) × (arguments.new.items ≡ arguments.old.items ++ more) }
{
    if numbers.len() == 1 {
        return Ok(Key::One(operator, numbers[0]));
    }
    if numbers.len() == 2 {
        return Ok(Key::Two(operator, [numbers[0], numbers[1]]));
    }
    let from = narrow(arguments.len())?;
    arguments.extend_from_slice(numbers)?;
    let to = narrow(arguments.len())?;
    Ok(Key::Many(operator, from, to))
}

impl Nodes {
    pub(crate) fn new(alloc: Global) -> Nodes
        ensures sound { IsSound result }
        ensures all_terms { all_terms result ≡ [] }
    {
        Nodes {
            kept: Vec::new(alloc),
            arguments: Vec::new(alloc),
            slots: Vec::new(alloc),
            spare: Vec::new(alloc),
        }
    }

    fn is_at(&self, index: usize, sought: &Sought) -> bool
        requires sound { IsSound self.now }
        requires inside { index < length (all_terms self.now) }
        requires can { CanBeSought (all_terms self.now) sought.now }
        ensures { IsTrue result ↔ IsAt (all_terms self.now) index sought.now }
    {
        let kept = &self.kept[index];
        match &kept.key {
            Key::Leaf => match sought {
                Sought::Leaf(term) => same(&kept.term, term),
                Sought::Node(_, _) => false,
            },
            Key::One(operator, only) => sought.is_node(*operator, slice::from_ref(only)),
            Key::Two(operator, both) => sought.is_node(*operator, both.as_slice()),
            Key::Many(operator, from, to) => {
                sought.is_node(*operator, &self.arguments[*from as usize..*to as usize])
            }
        }
    }

    /// The same, where keys with other hashes are told at once.
    #[inline(always)]
    fn is_found(&self, index: usize, hash: u32, sought: &Sought) -> bool
        requires sound { IsSound self.now }
        requires inside { index < length (all_terms self.now) }
        requires can { CanBeSought (all_terms self.now) sought.now }
        requires hash { hash ≡ sought_hash sought.now }
        ensures { IsTrue result ↔ IsAt (all_terms self.now) index sought.now }
    {
        self.kept[index].hash == hash && self.is_at(index, sought)
    }

    /// Looks for a term.
    pub(crate) fn seek(&self, hash: u32, sought: &Sought) -> Seek
        requires sound { IsSound self.now }
        requires can { CanBeSought (all_terms self.now) sought.now }
        requires hash { hash ≡ sought_hash sought.now }
        ensures { Finds (all_terms self.now) self.now.slots.items hash
            (sought_term (all_terms self.now) sought.now) result }
    {
        let count = self.slots.len();
        if count == 0 {
            return Seek::Full;
        }
        let home = home(hash, count);
        for steps in 0..count {
            let at = slot_at(home, steps, count);
            let number = self.slots[at];
            if number == 0 {
                return Seek::Free(at);
            }
            let index = number as usize - 1;
            if self.is_found(index, hash, sought) {
                return Seek::Old(number - 1);
            }
        }
        Seek::Full
    }

    /// Puts a new term behind the others.
    fn put(&mut self, at: usize, kept: Kept) -> Result<u32, AllocError>
        requires sound { IsSound self.old }
        requires free { IsFree self.old.slots.items kept.hash at }
        requires keyed { IsKeyed (all_terms self.old) self.old.arguments.items
            (length self.old.kept.items) kept.hash kept.term kept.key }
        requires new { ¬ Contains (all_terms self.old) kept.term }
        ensures sound { IsSound self.new }
        ensures ok { IfOk result (λ n. (n ≡ length (all_terms self.old))
            × (all_terms self.new ≡ all_terms self.old ++ kept.term ∷ [])) }
        ensures err { OnErr result (all_terms self.new ≡ all_terms self.old) }
    {
        let number = number_at(self.kept.len())?;
        self.kept.push(kept)?;
        self.slots[at] = number;
        Ok(number - 1)
    }

    /// Makes room for one term more.
    fn make_room(&mut self, alloc: Global) -> Result<(), AllocError>
        requires { IsSound self.old }
        ensures sound { IsSound self.new }
        ensures same { all_terms self.new ≡ all_terms self.old }
    {
        if self.kept.len() < self.slots.len() / 2 {
            return Ok(());
        }
        let count = self.slots.len().checked_mul(2).ok_or(AllocError)?;
        self.slots = slots_for(alloc, self.kept.as_slice(), count.max(16))?;
        Ok(())
    }

    /// Puts a new term behind the others, by what it was looked for.
    fn put_sought(
        &mut self,
        at: usize,
        hash: u32,
        sought: &Sought,
        term: Term,
    ) -> Result<u32, AllocError>
        requires sound { IsSound self.old }
        requires free { IsFree self.old.slots.items hash at }
        requires can { CanBeSought (all_terms self.old) sought.now }
        requires hash { hash ≡ sought_hash sought.now }
        requires is { term ≡ sought_term (all_terms self.old) sought.now }
        requires new { ¬ Contains (all_terms self.old) term }
        ensures sound { IsSound self.new }
        ensures ok { IfOk result (λ n. (n ≡ length (all_terms self.old))
            × (all_terms self.new ≡ all_terms self.old ++ term ∷ [])) }
        ensures err { OnErr result (all_terms self.new ≡ all_terms self.old) }
    {
        match sought {
            Sought::Leaf(_) => {
                let key = Key::Leaf;
                self.put(at, Kept { hash, key, term })
            }
            Sought::Node(operator, arguments) => {
                let key = key_of(&mut self.arguments, *operator, arguments)?;
                self.put(at, Kept { hash, key, term })
            }
        }
    }

    /// The number of a term. A new one is copied.
    fn keep(&mut self, alloc: Global, sought: &Sought, term: &Term) -> Result<u32, AllocError>
        requires sound { IsSound self.old }
        requires can { CanBeSought (all_terms self.old) sought.now }
        requires is { term.now ≡ sought_term (all_terms self.old) sought.now }
        ensures sound { IsSound self.new }
        ensures ok { IfOk result (Numbers (all_terms self.old) (all_terms self.new) term.now) }
        ensures err { OnErr result (all_terms self.new ≡ all_terms self.old) }
    {
        self.make_room(alloc)?;
        let hash = sought.hash();
        match self.seek(hash, sought) {
            Seek::Old(number) => Ok(number),
            Seek::Free(at) => {
                let term = copy(term)?;
                self.put_sought(at, hash, sought, term)
            }
            Seek::Full => Err(AllocError),
        }
    }

    /// The number of an operator on terms that have these numbers. A new one is made.
    pub(crate) fn make(
        &mut self,
        alloc: Global,
        operator: OpId,
        arguments: &[u32],
    ) -> Result<u32, AllocError>
        requires sound { IsSound self.old }
        requires below { AreBelow (length (all_terms self.old)) arguments.now }
        ensures sound { IsSound self.new }
        ensures ok { IfOk result
            (Numbers (all_terms self.old) (all_terms self.new)
            (applied operator (terms_of (terms_at (all_terms self.old) arguments.now)))) }
        ensures err { OnErr result (all_terms self.new ≡ all_terms self.old) }
    {
        self.make_room(alloc)?;
        let sought = Sought::Node(operator, arguments);
        let hash = sought.hash();
        match self.seek(hash, &sought) {
            Seek::Old(number) => Ok(number),
            Seek::Free(at) => {
                let kept = self.kept.as_slice();
                let term = term_over(alloc, kept, &mut self.spare, operator, arguments)?;
                self.put_sought(at, hash, &sought, term)
            }
            Seek::Full => Err(AllocError),
        }
    }

    /// The same, where the arguments themselves stand in a list from a place on. They are taken out of it.
    pub(crate) fn make_behind(
        &mut self,
        alloc: Global,
        operator: OpId,
        arguments: &[u32],
        terms: &mut Vec<Term>,
        from: usize,
    ) -> Result<u32, AllocError>
        requires sound { IsSound self.old }
        requires below { AreBelow (length (all_terms self.old)) arguments.now }
        requires are { terms_at (all_terms self.old) arguments.now ≡ drop from terms.old.items }
        ensures sound { IsSound self.new }
        ensures ok { IfOk result (Numbers (all_terms self.old) (all_terms self.new)
            (applied operator (terms_of (drop from terms.old.items)))) }
        ensures taken { OnOk result (terms.new.items ≡ take from terms.old.items) }
        ensures err { OnErr result (all_terms self.new ≡ all_terms self.old) }
    {
        self.make_room(alloc)?;
        let sought = Sought::Node(operator, arguments);
        let hash = sought.hash();
        match self.seek(hash, &sought) {
            Seek::Old(number) => {
                terms.truncate(from);
                Ok(number)
            }
            Seek::Free(at) => {
                let term = Term::apply_behind(alloc, operator, terms, from)?;
                let number = self.put_sought(at, hash, &sought, term)?;
                Ok(number)
            }
            Seek::Full => Err(AllocError),
        }
    }

    /// The number of a term, whose parts come before it. The numbers of arguments stand behind others that wait.
    pub(crate) fn walk(
        &mut self,
        alloc: Global,
        term: &Term,
        waiting: &mut Vec<u32>,
    ) -> Result<u32, AllocError>
        requires { IsSound self.old }
        ensures sound { IsSound self.new }
        ensures extends { Extends (all_terms self.old) (all_terms self.new) }
        ensures known { OnOk result (Contains (all_terms self.old) term.now → all_terms self.new ≡ all_terms self.old) }
        ensures ok { IfOk result (HasNumber (all_terms self.new) term.now) }
        ensures waiting { OnOk result (waiting.new.items ≡ waiting.old.items) }
    {
        match term.view() {
            View::Op(operator, args) => {
                let base = waiting.len();
                for arg in args {
                    let number = self.walk(alloc, arg, waiting)?;
                    waiting.push(number)?;
                }
                let sought = Sought::Node(operator, &waiting[base..]);
                let number = self.keep(alloc, &sought, term)?;
                waiting.truncate(base);
                Ok(number)
            }
            _ => self.keep(alloc, &Sought::Leaf(term), term),
        }
    }
}
