// Hashes of keys: a number for what stands on top of a term, with the numbers of its arguments.
ghost use Rattle.std.specs.Prelude.{◌≡◌, ◌/◌, ◌^◌};
ghost use Rattle.mw_store.specs.Hashes.{mix, mix_all, leaf_hash, node_hash};

use mw_term::{OpId, Term, View};

const FACTOR: u64 = 0x9E37_79B9_7F4A_7C15;

/// One number more.
#[inline(always)]
#[tactic(auto, unfolding(crate::specs::Hashes::mix))]
fn hash_with(hash: u64, number: u64) -> u64
    ensures { result ≡ mix hash number }
{
    hash.wrapping_add(number).wrapping_mul(FACTOR)
}

fn hash_with_all(hash: u64, numbers: &[u32]) -> u64
    ensures { result ≡ mix_all hash numbers.now }
{
    let mut hash = hash;
    for number in numbers {
        hash = hash_with(hash, *number as u64);
    }
    hash
}

fn hash_with_bytes(hash: u64, bytes: &[u8]) -> u64
    ensures { result ≡ mix_all hash bytes.now }
{
    let mut hash = hash;
    for byte in bytes {
        hash = hash_with(hash, *byte as u64);
    }
    hash
}

fn upper_half(hash: u64) -> u32
    ensures { result ≡ hash / 2 ^ 32 }
{
    (hash / (1 << 32)) as u32
}

/// Of an operator on arguments with these numbers.
pub(crate) fn hash_node(operator: OpId, arguments: &[u32]) -> u32
    ensures { result ≡ node_hash operator arguments.now }
{
    upper_half(hash_with_all(hash_with(1, operator as u64), arguments))
}

/// Of a numeral, a quoted identifier or a variable.
pub(crate) fn hash_leaf(leaf: &Term) -> u32
    ensures { result ≡ leaf_hash leaf.now }
{
    match leaf.view() {
        View::Nat(number) => {
            let low = (number % (1 << 64)) as u64;
            let high = (number / (1 << 64)) as u64;
            upper_half(hash_with(hash_with(2, low), high))
        }
        View::Qid(name) => upper_half(hash_with_bytes(3, name.as_slice())),
        View::Var(variable) => {
            let sort = hash_with(4, variable.sort as u64);
            upper_half(hash_with_bytes(sort, variable.name.as_slice()))
        }
        View::Op(_, _) => 0,
    }
}
