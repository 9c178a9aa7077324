// The values of a substitution, found by variable.
ghost use Rattle.std.specs.Prelude.{◌≡◌, [], map, IfOk, MatchOption, None, Some};
ghost use Rattle.mw_logic.specs.Substitution.{value as value_of};

use mw_term::{Binding, SortId, Subst, Term, VarId};
use std::alloc::{AllocError, Global};
use std::collections::HashMap;
use std::marker::Model;

/// A substitution with a table of its values. Contracts see the substitution.
#[derive(Drop)]
pub struct Values<'a> {
    pairs: &'a [Binding],
    table: HashMap<(&'a [u8], SortId), &'a Term>,
}

impl<'a> Model for Values<'a> {
    ghost use Rattle.std.specs.Prelude.{map};
    ghost use Rattle.std.specs.Coded.{codes};
    ghost use Rattle.mw_logic.specs.TermCode.{coded_term, coded_variable};
    ghost use Rattle.mw_logic.specs.Substitution.{Substitution};

    ghost Value = { Substitution };

    ghost coded = { Prim.hlevel (codes, coded_term, coded_variable) };

    ghost use Rattle.mw_canon.specs.Tables.{pair_of, HasValues};

    ghost view = { λ v. map pair_of v.pairs.now };

    ghost invariant = { λ v. HasValues (map pair_of v.pairs.now) v.table };
}

impl<'a> Values<'a> {
    /// No variable has a value.
    pub fn none(alloc: Global) -> Values<'a>
        ensures { result ≡ [] }
    {
        Values {
            pairs: &[],
            table: HashMap::new(alloc),
        }
    }

    /// The values of a substitution.
    pub fn of(alloc: Global, substitution: &'a Subst) -> Result<Values<'a>, AllocError>
        ensures { IfOk result (λ v. v ≡ substitution.now) }
    {
        let pairs = substitution.pairs.as_slice();
        let mut table = HashMap::new(alloc);
        let n = pairs.len();
        for i in 0..n {
            // the first of two pairs of one variable is put in last, and stays
            let pair = &pairs[n - 1 - i];
            let x = &pair.variable;
            table.insert((x.name.as_slice(), x.sort), &pair.value)?;
        }
        Ok(Values { pairs, table })
    }

    /// The value of a variable.
    pub fn at(&self, x: &VarId) -> Option<&Term>
        ensures { MatchOption result (value_of self.now x.now ≡ None) (λ t. value_of self.now x.now ≡ Some t.now) }
    {
        match self.table.get(&(x.name.as_slice(), x.sort)) {
            Some(value) => Some(*value),
            None => None,
        }
    }
}
