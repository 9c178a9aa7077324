// Modules.
ghost use Rattle.std.specs.Prelude.{◌≡◌, ◌↔◌, IsTrue};

use crate::lists::all_same;
use crate::signatures::same_signature;
use mw_least::Ctx;

/// Whether two contexts are contexts of one module: of the same sorts, subsort pairs, operators and statements, each in
/// the same order. It takes no memory, and one walk over both at most, which ends at the first difference.
pub fn same_module(one: &Ctx, other: &Ctx) -> bool
    ensures { IsTrue result ↔ (one.now ≡ other.now) }
{
    if !same_signature(one.signature(), other.signature()) {
        return false;
    }
    all_same(one.statements(), other.statements())
}
