// Patterns whose variables stand by position.
ghost use Rattle.std.specs.Prelude.{◌≤◌, length, IfOk};
ghost use Rattle.mw_position.specs.Variables.{AreDistinct, bound_variables};
ghost use Rattle.mw_solving.specs.Values.{AreSure};
ghost use Rattle.mw_compile.specs.Compiled.{IsCompiled, IsNumbered};

use crate::meeting::{meet_all, places_of};
use crate::placing::{by_position, variables_of};
use crate::reordering::reordered;
use crate::singles::Singles;
use crate::variables::Variables;
use mw_least::Ctx;
use mw_search::Positions;
use mw_term::{Seq, Subst, Term, VarId};
use std::alloc::{AllocError, Global};

/// A pattern whose variables stand by position, as a search takes it.
#[derive(Drop)]
pub struct Compiled {
    pub pattern: Term,
    pub positions: Positions,
    /// The variables, by position.
    pub variables: Seq<VarId>,
}

/// The pattern with positions for variables, behind the variables that are given.
fn numbered(
    alloc: Global,
    singles: &Singles<'_>,
    pattern: &Term,
    given: &Subst,
) -> Result<Compiled, AllocError>
    requires { AreDistinct (bound_variables given.now) }
    ensures numbered { IfOk result (IsNumbered (bound_variables given.now) pattern.now) }
    ensures sure { IfOk result (λ c. AreSure singles.now c.positions.single.items c.positions.sorts) }
    ensures bounded { IfOk result (λ c. length c.positions.single.items ≤ length c.variables) }
{
    let mut places = places_of(alloc, given)?;
    meet_all(&mut places, pattern)?;
    let sorts = places.sorts(alloc)?;
    let variables = variables_of(alloc, &places)?;
    let pattern = by_position(alloc, &places, pattern)?;
    let single = singles.lists(alloc, sorts.as_slice())?;
    let positions = Positions { sorts, single };
    Ok(Compiled {
        pattern,
        positions,
        variables,
    })
}

/// A canonical pattern as a search takes it. The variables that have values in `given` get the first positions.
pub fn compile(
    alloc: Global,
    context: &Ctx,
    pattern: &Term,
    given: &Subst,
) -> Result<Compiled, AllocError>
    requires distinct { AreDistinct (bound_variables given.now) }
    ensures { IfOk result (IsCompiled context.now.signature pattern.now (bound_variables given.now)) }
{
    let mut singles = Singles::none(alloc, context);
    singles.put_all(alloc, pattern)?;
    let mut known = Variables::given(alloc, given)?;
    let pattern = reordered(alloc, &singles, &mut known, pattern)?;
    let compiled = numbered(alloc, &singles, &pattern, given)?;
    Ok(compiled)
}
