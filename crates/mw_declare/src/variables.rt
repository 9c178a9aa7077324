// The variables of a module, with their sorts.
ghost use Rattle.std.specs.Prelude.{◌≡◌, ◌++◌, ◌∷◌, List, [], Ok, Err, None, IfOk, IfErr, OnOk, map, option_map};
ghost use Rattle.mw_module.specs.Units.{seen_statements};
ghost use Rattle.mw_module.specs.Causes.{HasCause};
ghost use Rattle.mw_declare.specs.Faults.{sort_in, joined, typed, typing_of, variables_with};

use indexmap::IndexMap;
use mw_module::{Fault, FaultKind, Form, Lined, UnitError, Word};
use mw_term::{Name, Seq, VarId};
use mw_text::Names;
use std::alloc::{AllocError, Global};
use std::marker::Model;

/// Variables of statements, in order of first mention. It is seen as their names, each with the name of its sort, which
/// needn't be declared.
#[derive(Drop)]
pub struct Typing {
    sorts: Box<IndexMap<Vec<u8>, Vec<u8>>>,
}

impl Model for Typing {
    ghost use Rattle.std.specs.Prelude.{List, ℕ, map};
    ghost use Rattle.std.specs.Global.{Vec};

    ghost Value = { List (List ℕ × List ℕ) };

    ghost view = { λ m. map (λ (e : Vec ℕ × Vec ℕ). (e.0.items, e.1.items)) m.sorts.value.entries };
}

impl Typing {
    fn new(alloc: Global) -> Result<Typing, AllocError>
        ensures { IfOk result (λ typing. typing ≡ []) }
    {
        let sorts = Box::new(alloc, IndexMap::new(alloc))?;
        Ok(Typing { sorts })
    }

    /// The sort of a variable.
    fn sort(&self, name: &[u8]) -> Option<&Vec<u8>>
        ensures { option_map (λ s. s.now.items) result ≡ sort_in self.now name.now }
    {
        self.sorts.get(name)
    }

    /// Adds a variable that isn't there.
    fn insert(&mut self, alloc: Global, name: &[u8], sort: &[u8]) -> Result<(), AllocError>
        requires { sort_in self.old name.now ≡ None }
        ensures { OnOk result (self.new ≡ self.old ++ (name.now, sort.now) ∷ []) }
    {
        let key = name.to_vec(alloc)?;
        let sort = sort.to_vec(alloc)?;
        self.sorts.insert(key, sort)?;
        Ok(())
    }

    /// Adds a variable, unless it is there with this sort; with another one it is a fault at this line.
    fn join(&mut self, alloc: Global, line: u32, name: &[u8], sort: &[u8]) -> Result<(), UnitError>
        ensures added { OnOk result (joined line (sort_in self.old name.now) self.old name.now sort.now ≡ Ok self.new) }
        ensures fault { IfErr result
            (HasCause (λ fault. joined line (sort_in self.old name.now) self.old name.now sort.now ≡ Err fault)) }
    {
        if let Some(known) = self.sort(name) {
            if known.as_slice() == sort {
                return Ok(());
            }
            let kind = FaultKind::AlreadyDefined(Name::of(name.to_vec(alloc)?));
            return Err(UnitError::Fault(Fault { line, kind }));
        }
        self.insert(alloc, name, sort)?;
        Ok(())
    }

    /// Adds variables of one sort.
    fn join_all(
        &mut self,
        alloc: Global,
        line: u32,
        names: &[Word<'_>],
        sort: &[u8],
    ) -> Result<(), UnitError>
        ensures added { OnOk result (typed line (Ok self.old) names.now sort.now ≡ Ok self.new) }
        ensures fault { IfErr result (HasCause (λ fault. typed line (Ok self.old) names.now sort.now ≡ Err fault)) }
    {
        for name in names {
            self.join(alloc, line, name.as_slice(), sort)?;
        }
        Ok(())
    }

    /// The variables, each with its sort's number.
    pub(crate) fn variables(&self, alloc: Global, sorts: &Names) -> Result<Seq<VarId>, AllocError>
        ensures { IfOk result (λ xs. xs ≡ variables_with sorts.now self.now) }
    {
        let mut variables = Vec::new(alloc);
        for (name, sort) in self.sorts.iter() {
            let name = Name::of(name.as_slice().to_vec(alloc)?);
            let sort = sorts.number(sort.as_slice())?;
            variables.push(VarId { name, sort })?;
        }
        Ok(Seq::of(variables))
    }
}

/// The variables that statements declare, or the fault of the first that is declared again with another sort, at the
/// line of the statement that declares it again. Sorts aren't looked at.
pub fn all_typed(alloc: Global, statements: &[Lined<'_>]) -> Result<Typing, UnitError>
    ensures typed { IfOk result (λ typing. typing_of (seen_statements statements.now) ≡ Ok typing) }
    ensures fault { IfErr result (HasCause (λ fault. typing_of (seen_statements statements.now) ≡ Err fault)) }
{
    let mut typing = Typing::new(alloc)?;
    for statement in statements {
        if let Form::Variables { names, sort } = &statement.form {
            typing.join_all(alloc, statement.line, names.as_slice(), sort.as_slice())?;
        }
    }
    Ok(typing)
}
