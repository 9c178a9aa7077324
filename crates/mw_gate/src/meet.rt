// A gate at which two claims meet: it shows that two workers hold a claim each at one time.
ghost use Rattle.std.specs.Prelude.{◌≡◌};

use crate::gate::Gate;
use std::hint::spin_loop;
use std::sync::atomic::{AtomicU64, Ordering};

// How far a meeting is; the gate keeps its number.
#[derive(Clone, Copy)]
enum Stage {
    Empty,
    // The first caller waits.
    Held,
    // The second came in time.
    Met,
    // The first caller spent its turns.
    Parted,
}

/// Holds the caller of the first `claimed` until a second `claimed` comes, for at most so many turns of a loop.
/// Later callers aren't held. It takes no memory, and any number of threads may share it, so no clause says what
/// `met` and `receipts` answer.
#[derive(Drop)]
pub struct MeetGate {
    turns: u64,
    stage: AtomicU64,
    receipts: AtomicU64,
}

impl MeetGate {
    pub fn new(turns: u64) -> MeetGate
        ensures { result.turns ≡ turns }
    {
        MeetGate {
            turns,
            stage: AtomicU64::new(Stage::Empty as u64),
            receipts: AtomicU64::new(0),
        }
    }

    /// Whether the second `claimed` was called before the first caller had spent its turns.
    pub fn met(&self) -> bool {
        self.stage.load(Ordering::SeqCst) == Stage::Met as u64
    }

    /// How often `given` was called, modulo 2^64.
    pub fn receipts(&self) -> u64 {
        self.receipts.load(Ordering::SeqCst)
    }

    // Whether this call took the meeting from one stage to another, in one step.
    fn advance(&self, from: Stage, to: Stage) -> bool {
        let order = Ordering::SeqCst;
        self.stage
            .compare_exchange(from as u64, to as u64, order, order)
            .is_ok()
    }

    fn hold(&self) {
        for _ in 0..self.turns {
            if self.met() {
                return;
            }
            spin_loop();
        }
        self.advance(Stage::Held, Stage::Parted);
    }
}

impl Gate for MeetGate {
    fn claimed(&self, _n: u64) {
        if self.advance(Stage::Empty, Stage::Held) {
            self.hold();
        } else {
            self.advance(Stage::Held, Stage::Met);
        }
    }

    fn given(&self, _n: u64) {
        self.receipts.fetch_add(1, Ordering::SeqCst);
    }
}
