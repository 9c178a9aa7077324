// The machine's data.
ghost use Rattle.std.specs.Prelude.{◌≡◌, []};
ghost use Rattle.mw_logic.specs.Module.{Module};
ghost use Rattle.mw_trail.specs.Tracks.{moves};
ghost use Rattle.mw_frames.specs.Machines.{data_of};

use crate::job::{Frame, Job};
use mw_term::Term;
use mw_trail::Trail;
use std::alloc::Global;
use std::mem::replace;

/// Frames with something in the hole, the innermost last; the terms that are done in all frames, what waits in all of
/// them, and the proof so far. `near` tells where among the terms that are done the last ones were taken out, as a hint
/// where to look first for what comes of them.
#[derive(Drop)]
pub struct Machine<'m> {
    pub frames: Vec<Frame>,
    pub done: Vec<Term>,
    pub jobs: Vec<Job<'m>>,
    pub kept: Trail,
    pub near: usize,
}

impl<'m> Machine<'m> {
    /// Nothing is under way.
    pub fn new(alloc: Global) -> Machine<'m>
        ensures { (M : Module) → data_of M result ≡ record { frames = []; done = []; jobs = []; values = []; moves = [] } }
    {
        Machine {
            frames: Vec::new(alloc),
            done: Vec::new(alloc),
            jobs: Vec::new(alloc),
            kept: Trail::new(alloc),
            near: usize::MAX,
        }
    }

    /// Nothing is under way any more. What is kept stays.
    pub fn restart(&mut self)
        ensures { (M : Module) → data_of M self.new ≡ record { frames = []; done = []; jobs = []; values = self.old.kept.values; moves = moves M self.old.kept } }
    {
        self.frames.clear();
        self.done.clear();
        self.jobs.clear();
    }
}

/// Where among the own arguments of a frame, which begin at a place, the last terms were taken out. It is told once,
/// since what comes next mostly belongs at the end; and not to a frame that is further in.
pub(crate) fn taken_near(near: &mut usize, from: usize) -> usize {
    if *near < from {
        return usize::MAX;
    }
    replace(near, usize::MAX) - from
}
