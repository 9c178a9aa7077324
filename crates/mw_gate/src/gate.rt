// The trait of an observer, and the one that does nothing.

/// What a worker calls, outside of every lock, with a claim's number: `claimed` after it took the claim,
/// `given` after it got the receipt. Any number may come, any number of times, from any thread. The calls answer
/// nothing, take no memory and change nothing that the worker sees; since they have no handle, they return.
pub trait Gate: Sync {
    fn claimed(&self, n: u64);

    fn given(&self, n: u64);
}

/// Returns at once.
#[derive(Clone, Copy, Debug)]
pub struct NoGate;

impl Gate for NoGate {
    fn claimed(&self, _n: u64) {}

    fn given(&self, _n: u64) {}
}
