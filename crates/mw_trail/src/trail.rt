// A proof under way: a flat list of items, with the terms and the numbers that they take.
ghost use Rattle.std.specs.Prelude.{◌≡◌, ◌++◌, ◌+◌, ◌^◌, ◌<◌, [], ◌∷◌, ℕ, length, take, drop, IfOk, OnOk, OnErr};
ghost use Rattle.std.specs.List.{zip};
ghost use Rattle.mw_logic.specs.Module.{Module};
ghost use Rattle.mw_canon.specs.Canonical.{meant};
ghost use Rattle.mw_deduction.specs.Replay.{into, among, begins, ends, applies, meets, Leaves};
ghost use Rattle.mw_trail.specs.Tracks.{Track, IsTrack, IsMark, Keeps, KeepsBefore, TakesBack, moves, needs, counts, needed, counted, variables_of, is_rule};

use mw_term::{Term, copy};
use std::alloc::{AllocError, Global};
use std::marker::Model;

/// One item of a proof. It takes eight bytes.
#[derive(Clone, Copy)]
pub enum Item {
    /// Into the argument of this number, from 1.
    Into(u32),
    /// Into so many arguments, whose numbers are the trail's next ones.
    Among(u32),
    /// Out again.
    Out,
    /// Into a side of a condition: so many of the terms are at hand there, and it begins at the next one.
    Begin(u32),
    /// Out of it.
    End,
    /// So many of the terms are the values of the variables of the statement of this number, which is applied.
    Apply(u16, u32),
    /// A row of the built-in schemata, of which the next one of the terms comes.
    Row,
}

impl Item {
    /// How many terms it takes.
    pub fn values(self) -> usize
        ensures { result ≡ needs self }
    {
        match self {
            Item::Apply(count, _) => count as usize,
            Item::Begin(count) => count as usize + 1,
            Item::Row => 1,
            Item::Into(_) | Item::Among(_) | Item::Out | Item::End => 0,
        }
    }

    /// How many numbers it takes.
    pub fn numbers(self) -> usize
        ensures { result ≡ counts self }
    {
        match self {
            Item::Among(count) => count as usize,
            _ => 0,
        }
    }
}

const _: () = prove!(size_of::<Item>() == 8);

/// A proof under way.
#[derive(Drop)]
pub struct Trail {
    items: Vec<Item>,
    values: Vec<Term>,
    numbers: Vec<u32>,
}

impl Model for Trail {
    ghost use Rattle.std.specs.Coded.{codes};
    ghost use Rattle.mw_logic.specs.TermCode.{coded_term};
    ghost use Rattle.mw_trail.specs.Tracks.{Track, IsTrack};

    ghost Value = { Track };

    ghost coded = { Prim.hlevel (codes, coded_term) };

    ghost view = { λ t. record { items = t.items.items; values = t.values.items; numbers = t.numbers.items } };

    ghost invariant = { λ t. IsTrack (record { items = t.items.items; values = t.values.items; numbers = t.numbers.items }) };
}

/// The same number, where it is below 2^32.
fn narrow(number: usize) -> Result<u32, AllocError>
    ensures { IfOk result (λ n. n ≡ number) }
{
    if number > u32::MAX as usize {
        return Err(AllocError);
    }
    Ok(number as u32)
}

/// The same number, where it is below 2^16.
fn short(number: usize) -> Result<u16, AllocError>
    ensures { IfOk result (λ n. n ≡ number) }
{
    if number > u16::MAX as usize {
        return Err(AllocError);
    }
    Ok(number as u16)
}

/// Out of where the last item that goes in went. Where that is the last item at all, it is taken back, with so many
/// numbers.
#[inline(always)]
fn go_out(items: &mut Vec<Item>) -> Result<usize, AllocError>
    ensures out { IfOk result (TakesBack items.old.items items.new.items) }
    ensures same { OnErr result (items.new.items ≡ items.old.items) }
{
    if let Some(Item::Into(_)) = items.last() {
        let _ = items.pop();
        return Ok(0);
    }
    if let Some(Item::Among(count)) = items.last() {
        let count = *count as usize;
        let _ = items.pop();
        return Ok(count);
    }
    items.push(Item::Out)?;
    Ok(0)
}

impl Trail {
    pub fn new(alloc: Global) -> Trail
        ensures moves { (M : Module) → moves M result ≡ [] }
        ensures values { result.values ≡ [] }
    {
        Trail {
            items: Vec::new(alloc),
            values: Vec::new(alloc),
            numbers: Vec::new(alloc),
        }
    }

    /// The items, in order.
    pub fn items(&self) -> &[Item]
        ensures { result.now ≡ self.now.items }
    {
        self.items.as_slice()
    }

    /// The terms that they take, in order.
    pub fn values(&self) -> &[Term]
        ensures { result.now ≡ self.now.values }
    {
        self.values.as_slice()
    }

    /// The numbers that they take, in order.
    pub fn numbers(&self) -> &[u32]
        ensures { result.now ≡ self.now.numbers }
    {
        self.numbers.as_slice()
    }

    /// Into the argument of this number, from 1.
    #[inline(always)]
    pub fn enter(&mut self, number: usize) -> Result<(), AllocError>
        ensures moves { OnOk result ((M : Module) → moves M self.new ≡ moves M self.old ++ into number ∷ []) }
        ensures values { OnOk result (self.new.values ≡ self.old.values) }
        ensures keeps { OnOk result (Keeps self.old self.new) }
        ensures same { OnErr result (self.new ≡ self.old) }
    {
        let number = narrow(number)?;
        self.items.push(Item::Into(number))?;
        Ok(())
    }

    /// Into the arguments of these numbers.
    pub fn among(&mut self, numbers: &[u32]) -> Result<(), AllocError>
        ensures moves { OnOk result ((M : Module) → moves M self.new ≡ moves M self.old ++ among numbers.now ∷ []) }
        ensures values { OnOk result (self.new.values ≡ self.old.values) }
        ensures keeps { OnOk result (Keeps self.old self.new) }
        ensures same { OnErr result (self.new ≡ self.old) }
    {
        let count = narrow(numbers.len())?;
        self.items.reserve(1)?;
        self.numbers.extend_from_slice(numbers)?;
        self.items.push_reserved(Item::Among(count));
        Ok(())
    }

    /// Out again. Where nothing was done inside, it was never gone into.
    #[inline(always)]
    pub fn leave(&mut self) -> Result<(), AllocError>
        ensures moves { OnOk result ((M : Module) → Leaves (moves M self.old) (moves M self.new)) }
        ensures values { OnOk result (self.new.values ≡ self.old.values) }
        ensures keeps { OnOk result (KeepsBefore self.old self.new) }
        ensures same { OnErr result (self.new ≡ self.old) }
    {
        let count = go_out(&mut self.items)?;
        self.numbers
            .truncate(self.numbers.len().saturating_sub(count));
        Ok(())
    }

    /// Into a side of a condition, which begins at this term. These values, which are taken, are at hand there: the side
    /// begins at what is made of them.
    pub fn begin(&mut self, term: Term, given: &mut Vec<Term>) -> Result<(), AllocError>
        ensures moves { OnOk result ((M : Module) → moves M self.new ≡ moves M self.old ++ begins term ∷ []) }
        ensures values { OnOk result (self.new.values ≡ self.old.values ++ (given.old.items ++ term ∷ [])) }
        ensures keeps { OnOk result (Keeps self.old self.new) }
        ensures taken { OnOk result (given.new.items ≡ []) }
        ensures same { OnErr result (self.new ≡ self.old) }
    {
        let count = narrow(given.len())?;
        given.push(term)?;
        self.items.reserve(1)?;
        self.values.append(given)?;
        self.items.push_reserved(Item::Begin(count));
        Ok(())
    }

    /// Out of it: it waits for its statement.
    pub fn end(&mut self) -> Result<(), AllocError>
        ensures moves { OnOk result ((M : Module) → moves M self.new ≡ moves M self.old ++ ends ∷ []) }
        ensures values { OnOk result (self.new.values ≡ self.old.values) }
        ensures keeps { OnOk result (Keeps self.old self.new) }
        ensures same { OnErr result (self.new ≡ self.old) }
    {
        self.items.push(Item::End)?;
        Ok(())
    }

    /// The statement of this number is applied, by these values, which are taken, and by the sides that wait.
    #[inline(always)]
    pub fn apply(&mut self, number: usize, values: &mut Vec<Term>) -> Result<(), AllocError>
        ensures moves { OnOk result ((M : Module) → moves M self.new ≡ moves M self.old ++ applies number (is_rule M number) (meant M.signature (zip (variables_of M number) values.old.items)) values.old.items ∷ []) }
        ensures values { OnOk result (self.new.values ≡ self.old.values ++ values.old.items) }
        ensures keeps { OnOk result (Keeps self.old self.new) }
        ensures taken { OnOk result (values.new.items ≡ []) }
        ensures same { OnErr result (self.new ≡ self.old) }
        ensures kept { OnErr result (values.new.items ≡ values.old.items) }
    {
        let number = narrow(number)?;
        let count = short(values.len())?;
        self.items.reserve(1)?;
        self.values.append(values)?;
        self.items.push_reserved(Item::Apply(count, number));
        Ok(())
    }

    /// A row of the schemata is met, and this term comes of it.
    pub fn row(&mut self, term: Term) -> Result<(), AllocError>
        ensures moves { OnOk result ((M : Module) → moves M self.new ≡ moves M self.old ++ meets term ∷ []) }
        ensures values { OnOk result (self.new.values ≡ self.old.values ++ term ∷ []) }
        ensures keeps { OnOk result (Keeps self.old self.new) }
        ensures same { OnErr result (self.new ≡ self.old) }
    {
        self.items.reserve(1)?;
        self.values.push(term)?;
        self.items.push_reserved(Item::Row);
        Ok(())
    }

    /// Where it stands: so many items.
    pub fn mark(&self) -> usize
        ensures number { (M : Module) → result ≡ length (moves M self.now) }
        ensures mark { IsMark result self.now self.now }
    {
        self.items.len()
    }

    /// Back to where it stood. It takes no memory.
    pub fn back(&mut self, mark: usize)
        ensures moves { (M : Module) → moves M self.new ≡ take mark (moves M self.old) }
        ensures exact { (t : Track) → IsMark mark t self.old → self.new ≡ t }
    {
        let values = self.values.len();
        let numbers = self.numbers.len();
        if mark < self.items.len() {
            let taken = taken_by(&self.items[mark..]);
            self.items.truncate(mark);
            self.values.truncate(values.saturating_sub(taken.values));
            self.numbers.truncate(numbers.saturating_sub(taken.numbers));
        }
    }

    /// The same trail once more. Each of its terms is counted once more.
    pub fn copied(&self, alloc: Global) -> Result<Trail, AllocError>
        ensures { IfOk result (λ t. t ≡ self.now) }
    {
        let values = copies(alloc, self.values.as_slice())?;
        let mut items = Vec::new(alloc);
        items.extend_from_slice(self.items.as_slice())?;
        let mut numbers = Vec::new(alloc);
        numbers.extend_from_slice(self.numbers.as_slice())?;
        Ok(Trail {
            items,
            values,
            numbers,
        })
    }

    /// What another proof does is done behind this one.
    pub fn followed_by(self, next: Trail) -> Result<Trail, AllocError>
        ensures moves { IfOk result (λ t. (M : Module) → moves M t ≡ moves M self ++ moves M next) }
        ensures values { IfOk result (λ t. t.values ≡ self.values ++ next.values) }
    {
        let Trail {
            mut items,
            mut values,
            mut numbers,
        } = self;
        let Trail {
            items: mut more,
            values: mut others,
            numbers: mut places,
        } = next;
        join(
            &mut items,
            &mut more,
            &mut values,
            &mut others,
            &mut numbers,
            &mut places,
        )?;
        Ok(Trail {
            items,
            values,
            numbers,
        })
    }
}

/// The same terms once more.
fn copies(alloc: Global, terms: &[Term]) -> Result<Vec<Term>, AllocError>
    ensures { IfOk result (λ ts. ts.items ≡ terms.now) }
{
    let mut made = Vec::with_capacity(alloc, terms.len())?;
    for term in terms {
        made.push(copy(term)?)?;
    }
    Ok(made)
}

/// Three lists behind three others.
fn join(
    items: &mut Vec<Item>,
    more: &mut Vec<Item>,
    values: &mut Vec<Term>,
    others: &mut Vec<Term>,
    numbers: &mut Vec<u32>,
    places: &mut Vec<u32>,
) -> Result<(), AllocError>
    ensures items { OnOk result (items.new.items ≡ items.old.items ++ more.old.items) }
    ensures values { OnOk result (values.new.items ≡ values.old.items ++ others.old.items) }
    ensures numbers { OnOk result (numbers.new.items ≡ numbers.old.items ++ places.old.items) }
{
    items.append(more)?;
    values.append(others)?;
    numbers.append(places)?;
    Ok(())
}

/// How many terms and numbers items take.
#[derive(Clone, Copy)]
struct Taken {
    values: usize,
    numbers: usize,
}

fn taken_by(items: &[Item]) -> Taken
    requires values { needed items.now < 2 ^ 64 }
    requires numbers { counted items.now < 2 ^ 64 }
    ensures values { result.values ≡ needed items.now }
    ensures numbers { result.numbers ≡ counted items.now }
{
    let mut values = 0;
    let mut numbers = 0;
    for item in items {
        values += item.values();
        numbers += item.numbers();
    }
    Taken { values, numbers }
}
