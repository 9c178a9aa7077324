// Lists by number; beyond the last one each is empty.
ghost use Rattle.std.specs.Prelude.{◌≡◌, ◌≤◌, ◌<◌, ◌^◌, ℕ, IfOk, length};
ghost use Rattle.mw_chart.specs.Listed.{inner, Joins};

use std::alloc::{AllocError, Global};

/// The list at a number.
pub fn listed<T: Drop>(lists: &Vec<Vec<T>>, number: usize) -> &[T]
    ensures { result.now ≡ inner lists.now.items number }
{
    if number < lists.len() {
        lists[number].as_slice()
    } else {
        &[]
    }
}

/// Makes room for so many lists.
pub fn grow<T: Drop>(alloc: Global, lists: &mut Vec<Vec<T>>, count: usize) -> Result<(), AllocError>
    ensures long { IfOk result (λ _. count ≤ length lists.new.items) }
    ensures exact { IfOk result (λ _. length lists.old.items ≤ count → length lists.new.items ≡ count) }
    ensures same { IfOk result (λ _. (i : ℕ) → inner lists.new.items i ≡ inner lists.old.items i) }
{
    for _ in lists.len()..count {
        lists.push(Vec::new(alloc))?;
    }
    Ok(())
}

/// Puts an element into the list at a number.
pub fn join<T: Drop>(
    alloc: Global,
    lists: &mut Vec<Vec<T>>,
    number: usize,
    element: T,
) -> Result<(), AllocError>
    requires { number < 2 ^ 32 }
    ensures { IfOk result (λ _. Joins (λ i. i ≡ number) element lists.old.items lists.new.items) }
{
    grow(alloc, lists, number + 1)?;
    lists[number].push(element)?;
    Ok(())
}
