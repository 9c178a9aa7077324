// A number by which most terms are told from each other.
ghost use Rattle.std.specs.Prelude.{◌≡◌, ◌%◌, ◌+◌, ◌^◌};
ghost use Rattle.mw_logic.specs.Terms.{terms_of};
ghost use Rattle.mw_term.specs.Hashes.{hash_above as above, hash_of, hash_of_bytes as of_bytes, hash_sum as sum_of, scattered as scattering, stirred as stirring, turned as turning};

use crate::{OpId, Term};

/// The upper half of a word below the lower one.
#[inline(always)]
fn turned(word: u32) -> u32
    ensures { result ≡ turning word }
{
    word / 65536 + word % 65536 * 65536
}

/// A word for each word.
#[inline(always)]
fn stirred(word: u32) -> u32
    ensures { result ≡ stirring word }
{
    turned(word.wrapping_mul(word.wrapping_mul(2).wrapping_add(1)))
}

/// The same, so that sums of a few words mostly differ.
#[inline(always)]
fn scattered(word: u32) -> u32
    ensures { result ≡ scattering word }
{
    stirred(stirred(word.wrapping_mul(2654435769).wrapping_add(374761393)))
}

/// The sum over a term and others.
#[inline(always)]
pub(crate) fn with_first(term: &Term, others: u32) -> u32
    ensures { result ≡ (scattering (hash_of term.now) + others) % 2 ^ 32 }
{
    scattered(term.hash()).wrapping_add(others)
}

/// The sum over terms.
#[inline(always)]
pub(crate) fn hash_sum(terms: &[Term]) -> u32
    ensures { result ≡ sum_of (terms_of terms.now) }
{
    let mut sum = 0;
    let mut at = terms.len();
    while at > 0 {
        at -= 1;
        sum = with_first(&terms[at], sum);
    }
    sum
}

/// The hash of an operator on arguments, by the sum over these.
#[inline(always)]
pub(crate) fn hash_above(operator: OpId, sum: u32) -> u32
    ensures { result ≡ above operator sum }
{
    operator.wrapping_mul(2246822519).wrapping_add(sum)
}

/// The hash of a name.
pub(crate) fn hash_of_bytes(bytes: &[u8]) -> u32
    ensures { result ≡ of_bytes bytes.now }
{
    let mut hash: u32 = 0;
    let mut at = bytes.len();
    while at > 0 {
        at -= 1;
        hash = hash.wrapping_mul(31).wrapping_add(bytes[at] as u32);
    }
    hash
}
