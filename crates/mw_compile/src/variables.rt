// Sets of variables.
use mw_term::{SortId, Subst, Term, VarId, View};
use std::alloc::{AllocError, Global};
use std::collections::HashSet;

/// Variables, each once.
#[derive(Drop)]
pub struct Variables<'a> {
    set: HashSet<(&'a [u8], SortId)>,
}

impl<'a> Variables<'a> {
    /// No variables.
    pub fn none(alloc: Global) -> Variables<'a> {
        Variables {
            set: HashSet::new(alloc),
        }
    }

    /// The variables that have values.
    pub fn given(alloc: Global, given: &'a Subst) -> Result<Variables<'a>, AllocError> {
        let mut variables = Variables::none(alloc);
        for pair in given.pairs.as_slice() {
            variables.put(&pair.variable)?;
        }
        Ok(variables)
    }

    /// Puts a variable into the set, and says whether it is new there.
    pub fn put(&mut self, x: &'a VarId) -> Result<bool, AllocError> {
        let is_new = self.set.insert((x.name.as_slice(), x.sort))?;
        Ok(is_new)
    }

    /// Puts the variables of a term into the set.
    pub fn put_all(&mut self, term: &'a Term) -> Result<(), AllocError> {
        match term.view() {
            View::Var(x) => {
                self.put(x)?;
            }
            View::Op(_, args) => {
                let mut rest = args;
                while let [arg, after @ ..] = rest {
                    self.put_all(arg)?;
                    rest = after;
                }
            }
            _ => (),
        }
        Ok(())
    }

    /// The variables of a term, from the left, each once.
    pub fn listed(alloc: Global, term: &'a Term) -> Result<Vec<&'a VarId>, AllocError> {
        let mut met = Variables::none(alloc);
        let mut list = Vec::new(alloc);
        met.list_all(&mut list, term)?;
        Ok(list)
    }

    /// Puts the variables of a term into the set, and those that are new there behind a list.
    fn list_all(&mut self, list: &mut Vec<&'a VarId>, term: &'a Term) -> Result<(), AllocError> {
        match term.view() {
            View::Var(x) => {
                let is_new = self.put(x)?;
                if is_new {
                    list.push(x)?;
                }
            }
            View::Op(_, args) => {
                let mut rest = args;
                while let [arg, after @ ..] = rest {
                    self.list_all(list, arg)?;
                    rest = after;
                }
            }
            _ => (),
        }
        Ok(())
    }

    /// Whether there are none.
    pub fn is_empty(&self) -> bool {
        self.set.is_empty()
    }

    /// Whether a variable is in the set.
    pub fn has(&self, x: &VarId) -> bool {
        self.set.contains(&(x.name.as_slice(), x.sort))
    }
}
