// Accepted units, and what they reach.
ghost use Rattle.std.specs.Prelude.{◌≡◌, ◌++◌, ◌∷◌, List, [], None, IfOk, IfErr, OnOk, OnErr, map, flat_map, slice_get};
ghost use Rattle.mw_module.specs.Causes.{HasCause};
ghost use Rattle.mw_module.specs.Units.{seen_statements, seen_unit, seen_all};
ghost use Rattle.mw_import.specs.Flat.{number_named, reached_by, brought_by, first_unit, is_reached, statements_at, told_at};
ghost use Rattle.mw_import.specs.Flat.{all_statements};
ghost use Rattle.mw_import.specs.Flat.{IsFlat, IsWrong, ImportFault, AreAccepted};
ghost use Rattle.mw_import.specs.Gathering.{gathered, IsClosed, IsOf};

use indexmap::{IndexMap, IndexSet};
use mw_module::{Fault, FaultKind, Form, Lined, Stated, Unit, UnitError};
use mw_term::Name;
use std::alloc::{AllocError, Global};
use std::marker::Model;

/// The units that a module reaches by its imports, by their numbers from 0, in flattened order and without itself.
#[derive(Drop)]
pub struct Flat {
    reached: Vec<usize>,
}

impl Model for Flat {
    ghost use Rattle.std.specs.Prelude.{List, ℕ};

    ghost Value = { List ℕ };

    ghost view = { λ f. f.reached.items };
}

impl Flat {
    /// The units' numbers, in order.
    pub fn as_slice(&self) -> &[usize]
        ensures { result.now ≡ self.now }
    {
        self.reached.as_slice()
    }
}

/// A unit with the units that it reaches.
#[derive(Drop)]
struct Kept<'s> {
    unit: Unit<'s>,
    flat: Flat,
}

/// The units whose modules were accepted, in order, by their modules' names.
#[derive(Drop)]
pub struct Units<'s> {
    kept: IndexMap<Vec<u8>, Kept<'s>>,
}

impl<'s> Model for Units<'s> {
    ghost use Rattle.std.specs.Prelude.{List};
    ghost use Rattle.mw_import.specs.Flat.{FlatUnit, AreAccepted};

    ghost Value = { List FlatUnit };

    ghost use Rattle.mw_import.specs.Seen.{flat_units};

    ghost view = { λ m. flat_units m.kept.entries };

    ghost invariant = { λ m. AreAccepted (flat_units m.kept.entries) };
}

/// Adds units behind those that are there, each unless it is among them.
fn gather(there: &mut IndexSet<usize>, units: &[usize]) -> Result<(), AllocError>
    ensures { OnOk result (there.new.keys ≡ gathered there.old.keys units.now) }
{
    for unit in units {
        there.insert(*unit)?;
    }
    Ok(())
}

/// Adds statements, told at this line, behind those that are there.
fn tell<'u, 's>(
    all: &mut Vec<Stated<'u, 's>>,
    line: u32,
    statements: &'u [Lined<'s>],
) -> Result<(), AllocError>
    ensures { OnOk result
        (seen_all all.new.items ≡ seen_all all.old.items ++ map (told_at line) (seen_statements statements.now)) }
{
    for statement in statements {
        all.push(Stated {
            line,
            form: &statement.form,
        })?;
    }
    Ok(())
}

/// Adds statements, each told at its own line, behind those that are there.
fn add_own<'u, 's>(all: &mut Vec<Stated<'u, 's>>, own: &'u [Lined<'s>]) -> Result<(), AllocError>
    ensures { OnOk result (seen_all all.new.items ≡ seen_all all.old.items ++ seen_statements own.now) }
{
    for statement in own {
        all.push(Stated {
            line: statement.line,
            form: &statement.form,
        })?;
    }
    Ok(())
}

impl<'s> Units<'s> {
    /// No unit.
    pub fn new(alloc: Global) -> Units<'s>
        ensures { result ≡ [] }
    {
        Units {
            kept: IndexMap::new(alloc),
        }
    }

    /// What holds of accepted units.
    pub fn shows(&self)
        ensures { AreAccepted self.now }
    {
        let _ = &self.kept;
    }

    /// The number, from 0, of the unit whose module has this name.
    pub fn number(&self, name: &[u8]) -> Option<usize>
        ensures { result ≡ number_named self.now name.now }
    {
        self.kept.get_index_of(name)
    }

    /// The number of the unit that a module of this name imports by that one at this line, or what is wrong with the
    /// import.
    fn imported(
        &self,
        alloc: Global,
        own: &[u8],
        line: u32,
        name: &[u8],
    ) -> Result<usize, UnitError>
        ensures number { IfOk result (IsOf self.now own.now name.now) }
        ensures fault { IfErr result (HasCause (IsWrong self.now own.now (record { line = line; name = name.now }))) }
    {
        if name == own {
            let kind = FaultKind::CircularImport(Name::of(name.to_vec(alloc)?));
            return Err(UnitError::Fault(Fault { line, kind }));
        }
        match self.number(name) {
            Some(unit) => Ok(unit),
            None => {
                let kind = FaultKind::UnknownModule(Name::of(name.to_vec(alloc)?));
                Err(UnitError::Fault(Fault { line, kind }))
            }
        }
    }

    /// The units that the unit with this number reaches.
    fn reached(&self, unit: usize) -> &[usize]
        ensures { result.now ≡ reached_by (slice_get self.now unit) }
    {
        match self.kept.get_index(unit) {
            Some((_, kept)) => kept.flat.as_slice(),
            None => &[],
        }
    }

    /// Adds the statements of the unit with this number, told at this line, behind those that are there.
    fn tell_unit<'u>(
        &'u self,
        all: &mut Vec<Stated<'u, 's>>,
        line: u32,
        unit: usize,
    ) -> Result<(), AllocError>
        ensures { let told = map (told_at line) (statements_at (slice_get self.now unit)) in
            OnOk result (seen_all all.new.items ≡ seen_all all.old.items ++ told) }
    {
        match self.kept.get_index(unit) {
            Some((_, kept)) => tell(all, line, kept.unit.statements.as_slice()),
            None => Ok(()),
        }
    }

    /// Adds what a unit brings behind the units that are there. With each of these, all that it brings is there.
    fn bring(&self, there: &mut IndexSet<usize>, unit: usize) -> Result<(), AllocError>
        requires { IsClosed self.now there.old.keys }
        ensures brought { OnOk result (there.new.keys ≡ gathered there.old.keys (brought_by self.now unit)) }
        ensures closed { OnOk result (IsClosed self.now there.new.keys) }
    {
        if there.contains(&unit) {
            return Ok(());
        }
        self.shows();
        gather(there, self.reached(unit))?;
        there.insert(unit)?;
        Ok(())
    }

    /// Adds what the first unit brings to none, where there is one.
    fn bring_first(&self, there: &mut IndexSet<usize>) -> Result<(), AllocError>
        requires { there.old.keys ≡ [] }
        ensures brought { OnOk result
            (there.new.keys ≡ gathered [] (flat_map (brought_by self.now) (first_unit self.now))) }
        ensures closed { OnOk result (IsClosed self.now there.new.keys) }
    {
        if self.kept.is_empty() {
            return Ok(());
        }
        self.bring(there, 0)?;
        Ok(())
    }

    /// The units that a module of this name with these statements reaches, or the fault of its first import that has
    /// one.
    pub fn flatten(
        &self,
        alloc: Global,
        name: &[u8],
        statements: &[Lined<'_>],
    ) -> Result<Flat, UnitError>
        ensures flat { IfOk result (λ f. IsFlat self.now (seen_statements statements.now) f) }
        ensures fault { IfErr result (HasCause (ImportFault self.now name.now (seen_statements statements.now))) }
    {
        let mut there = IndexSet::new(alloc);
        self.bring_first(&mut there)?;
        for statement in statements {
            if let Form::Import { module } = &statement.form {
                let text = module.as_slice();
                let unit = self.imported(alloc, name, statement.line, text)?;
                self.bring(&mut there, unit)?;
            }
        }
        let reached = there.as_slice().to_vec(alloc)?;
        Ok(Flat { reached })
    }

    /// Whether the module of the name `own`, which reaches these units, has a module of this name: itself, or one of
    /// them.
    pub fn reaches(&self, flat: &Flat, own: &[u8], name: &[u8]) -> bool
        ensures { result ≡ is_reached self.now flat.now own.now name.now }
    {
        if own == name {
            return true;
        }
        match self.number(name) {
            Some(unit) => flat.as_slice().contains(&unit),
            None => false,
        }
    }

    /// The statements of a flattened module, in order: those of the units that it reaches, told at this line, and its
    /// own.
    pub fn statements<'u>(
        &'u self,
        alloc: Global,
        line: u32,
        flat: &Flat,
        own: &'u [Lined<'s>],
    ) -> Result<Vec<Stated<'u, 's>>, AllocError>
        requires { IsFlat self.now (seen_statements own.now) flat.now }
        ensures { IfOk result
            (λ v. seen_all v.items ≡ all_statements self.now line flat.now (seen_statements own.now)) }
    {
        let mut all = Vec::new(alloc);
        for unit in flat.as_slice() {
            self.tell_unit(&mut all, line, *unit)?;
        }
        add_own(&mut all, own)?;
        Ok(all)
    }

    /// Adds a unit behind the others; where memory ran out they are as before.
    pub fn accept(
        &mut self,
        alloc: Global,
        name: &[u8],
        unit: Unit<'s>,
        flat: Flat,
    ) -> Result<(), AllocError>
        requires new { number_named self.old name.now ≡ None }
        requires flat { IsFlat self.old (seen_unit unit).statements flat }
        ensures accepted { OnOk result (self.new ≡ self.old
            ++ record { name = name.now; statements = (seen_unit unit.entry).statements; reached = flat } ∷ []) }
        ensures kept { OnErr result (self.new ≡ self.old) }
    {
        let name = name.to_vec(alloc)?;
        self.kept.insert(name, Kept { unit, flat })?;
        Ok(())
    }
}
