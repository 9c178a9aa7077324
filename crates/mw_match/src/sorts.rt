// Values by the sorts of their variables.
ghost use Rattle.std.specs.Prelude.{◌≡◌, IsFalse, IsTrue, length};
ghost use Rattle.mw_search.specs.Lacking.{HaveTheirSorts, OneLacksItsSort};

use mw_least::Ctx;
use mw_term::{SortId, Term};

/// Whether values have these sorts, one by one. It takes no memory.
pub fn have_sorts(context: &Ctx, values: &[Term], sorts: &[SortId]) -> bool
    requires { length values.now ≡ length sorts.now }
    ensures fits { IsTrue result → HaveTheirSorts context.now.signature sorts.now 0 values.now }
    ensures lacks { IsFalse result → OneLacksItsSort context.now.signature sorts.now 0 values.now }
{
    for i in 0..values.len() {
        if !context.has_sort(&values[i], sorts[i]) {
            return false;
        }
    }
    true
}
