// A FIFO from a frame's start, tick by tick, with no division.
ghost use Rattle.std.specs.Prelude.{◌≡◌, ◌+◌, ◌%◌, ◌<◌, ◌≤◌, true, IfOk, OnErr};
ghost use Rattle.feeder.specs.Panel.{in_time};
ghost use Rattle.feeder.specs.Step.{plan_in, tick_in};
ghost use Rattle.feeder.specs.Model.{begun};
ghost use Rattle.fifo.specs.Frame.{Given, Plays};

use super::super::loads::bring;
use super::super::memories::Memory;
use super::super::pixels::{Exchange, Pixel};
use super::super::refusals::Refusal;
use super::Fifo;
use feeder::{Feeder, StateRefusal};
use timing::Plan;

// The place `by` places on in a ring.
fn onward(at: usize, by: usize, capacity: usize) -> usize
    requires inside { at < capacity }
    requires near { by ≤ capacity }
    requires small { capacity ≤ 65536 }
    ensures { result ≡ (at + by) % capacity }
{
    let place = at + by;
    if place >= capacity {
        place - capacity
    } else {
        place
    }
}

impl Fifo {
    // At a frame's start, with nothing in its ring; no fact of the type, since a step ends it.
    pub fn start(plan: Plan) -> Fifo
        ensures plan { result.feeder.counts.scan.plan ≡ plan }
        ensures tick { tick_in result.feeder.counts ≡ 0 }
        ensures progress { result.feeder.counts.progress ≡ begun }
    {
        Fifo {
            feeder: Feeder::start(plan),
            head: 0,
            tail: 0,
        }
    }

    pub fn feeder(&self) -> Feeder
        ensures { result ≡ self.now.feeder }
    {
        let Fifo { feeder, .. } = *self;
        feeder
    }

    // One tick, in which the memory may answer, and must in the last tick that it has. Refused, with nothing changed, by a ring of another length than the capacity and past the frame's last tick.
    pub fn step<M: Memory>(&mut self, ring: &mut [u16], memory: &mut M) -> Result<Pixel, Refusal>
        ensures same { M.Memory.script memory.new ≡ M.Memory.script memory.old }
        ensures unasked { OnErr result (memory.new ≡ memory.old) }
        ensures fed { in_time (plan_in self.old.feeder.counts) ≡ true → IfOk result Given }
        ensures plays { Plays (M.Memory.script memory.old) self.old ring.old result self.new ring.new }
    {
        let counts = self.feeder.counts();
        let capacity = counts.plan().numbers().capacity as usize;
        if ring.len() != capacity {
            return Err(Refusal::Ring { length: ring.len() });
        }
        if counts.is_over() {
            return Err(Refusal::State(StateRefusal::FrameOver));
        }
        let brought = counts.answers(memory.willing(counts.tick()));
        let count = bring(memory, ring, counts.progress(), brought, self.tail);
        let dot = ring[self.head];
        let mut feeder = self.feeder;
        let outcome = feeder.step(brought).unwrap();
        self.tail = onward(self.tail, count, capacity);
        self.head = onward(self.head, usize::from(outcome.takes_dot()), capacity);
        self.feeder = feeder;
        Ok(Exchange::of(outcome, dot).pixel)
    }
}
