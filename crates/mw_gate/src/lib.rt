//! What a worker tells an observer after each claim and each receipt. It stands on nothing but std's atomics.
//!
//! [`Gate`] has two calls, `claimed` after a worker took a claim and `given` after it got the receipt, both outside of
//! every lock, with the claim's number. They answer nothing and take `&self`, so the workers' results can't depend on
//! them. By their signatures, without conditions: both return at every number and from any thread, neither wait nor
//! abort, and take no memory. The program has no workers yet: its `top` takes an observer and tells it nothing.
//!
//! - [`NoGate`] returns at once.
//! - [`MeetGate`] holds the caller of the first `claimed` in a loop of at most `turns` turns until the second `claimed`
//!   comes. `met` tells whether it came in that time, `receipts` how often `given` was called. So a test sees that two
//!   workers hold a claim each at one time: one thread spends the turns, and `met` stays false. Its stage is one atomic
//!   word that moves by compare_exchange. 100,000,000 turns take about half a second.
//!
//! Proved: a gate keeps the number of turns that it was given. Only tested, by mw_tests: `met` and `receipts`, on one
//! thread and on two; no clause can say what an atomic word holds while other threads may write it. Neither: how long a
//! turn takes, and that a second thread gets to its call while the first is held.
#![tactic(auto)]

mod gate;
mod meet;

pub use gate::{Gate, NoGate};
pub use meet::MeetGate;
