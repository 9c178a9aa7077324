// Sets of numbers, as words of 64 bits.
ghost use Rattle.std.specs.Prelude.{◌≡◌, ◌≤◌, ◌<◌, ◌↔◌, ◌⊎◌, ℕ, IfOk, length, slice_index};
ghost use Rattle.std.specs.Int.{bit_at, trailing_zeros, w64};
ghost use Rattle.mw_chart.specs.Bits.{IsSet};

use std::alloc::AllocError;

/// Makes room for so many words.
fn reserve(set: &mut Vec<u64>, count: usize) -> Result<(), AllocError>
    ensures long { IfOk result (λ _. count ≤ length set.new.items) }
    ensures same { (y : ℕ) → IsSet set.new.items y ↔ IsSet set.old.items y }
{
    for _ in set.len()..count {
        set.push(0)?;
    }
    Ok(())
}

/// Adds a number.
pub fn insert(set: &mut Vec<u64>, x: usize) -> Result<(), AllocError>
    ensures { IfOk result (λ _. (y : ℕ) → IsSet set.new.items y ↔ (IsSet set.old.items y ⊎ (y ≡ x))) }
{
    reserve(set, x / 64 + 1)?;
    set[x / 64] |= 1u64 << (x % 64);
    Ok(())
}

/// The word at an index, where behind the last one all are 0.
pub fn word_of(set: &[u64], j: usize) -> u64
    ensures { result ≡ slice_index set.now j }
{
    if j < set.len() { set[j] } else { 0 }
}

/// What is in the first word and not in the second.
pub fn open_of(word: u64, full: u64) -> u64
    ensures { (i : ℕ) → bit_at word i ≡ 1 → (bit_at result i ≡ 1) ⊎ (bit_at full i ≡ 1) }
{
    word & (word ^ full)
}

/// Without its lowest number.
pub fn without_lowest(word: u64) -> u64
    requires { 0 < word }
    ensures less { result < word }
    ensures rest { (i : ℕ) → bit_at word i ≡ 1 → (bit_at result i ≡ 1) ⊎ (i ≡ trailing_zeros w64 word) }
{
    word & !(1u64 << word.trailing_zeros())
}
