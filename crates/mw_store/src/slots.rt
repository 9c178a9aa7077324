// Slots: a number for each key, found from its hash's slot on.
ghost use Rattle.std.specs.Prelude.{◌≡◌, ◌<◌, ◌+◌, ◌-◌, ◌*◌, ◌/◌, ◌^◌, length, IfSome, IfOk};
ghost use Rattle.mw_store.specs.Slots.{home_of, place, IsFree};

/// The slot where a hash's search begins, of so many.
#[inline(always)]
#[tactic(auto, using(crate::proofs::Probing::home_below), unfolding(crate::specs::Slots::home_of))]
pub(crate) fn home(hash: u32, count: usize) -> usize
    requires { 0 < count }
    ensures is { result ≡ home_of count hash }
    ensures below { result < count }
{
    (hash as u128 * count as u128 / (1 << 32)) as usize
}

/// The slot so many steps on. Behind the last comes the first.
#[inline(always)]
#[tactic(auto, unfolding(crate::specs::Slots::place))]
pub(crate) fn slot_at(home: usize, steps: usize, count: usize) -> usize
    requires { (home < count) × (steps < count) }
    ensures is { result ≡ place count home steps }
    ensures below { result < count }
{
    let left = count - home;
    if steps < left {
        home + steps
    } else {
        steps - left
    }
}

/// The first empty slot for a hash.
pub(crate) fn empty_slot(slots: &[u32], hash: u32) -> Option<usize>
    ensures { IfSome result (IsFree slots.now hash) }
{
    let count = slots.len();
    if count == 0 {
        return None;
    }
    let home = home(hash, count);
    for steps in 0..count {
        let at = slot_at(home, steps, count);
        if slots[at] == 0 {
            return Some(at);
        }
    }
    None
}
