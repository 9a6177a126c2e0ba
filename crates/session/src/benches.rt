// A plan at work: its picture, and the state and the ring that the circuit's entries are lent.
ghost use Rattle.std.specs.Prelude.{◌≡◌, IfOk, None, vec_len};

use super::failures::Failure;
use super::replies::Reply;
use super::turned::Turned;
use super::whys::Why;
use feeder::Counts;
use fifo::{Refusal, next_dots, try_tick};
use std::alloc::{AllocError, Global};
use timing::Plan;

#[derive(Debug, PartialEq, Drop)]
pub struct Bench {
    pub plan: Plan,
    // the picture's dots; none where they are numbered from 0
    pub dots: Option<Vec<u16>>,
    pub state: [u32; 6],
    pub ring: Vec<u16>,
}

// Numbers as dots, unless one is none. Their room is taken at once; what is collected would grow up to twice of it.
fn as_dots(heap: Global, row: &[u32]) -> Result<Vec<u16>, Failure> {
    let mut dots = Vec::with_capacity(heap, row.len())?;
    for (at, number) in row.iter().enumerate() {
        let number = *number;
        let dot = u16::try_from(number).map_err(|_| Why::NotADot { at, number })?;
        dots.push(dot).map_err(AllocError::from)?;
    }
    Ok(dots)
}

impl Bench {
    // At a frame's start, with an empty ring.
    pub fn new(heap: Global, plan: Plan) -> Result<Bench, AllocError>
        ensures { IfOk result (λ b. (b.plan ≡ plan) × (vec_len b.ring ≡ plan.numbers.capacity) × (b.dots ≡ None)) }
    {
        let ring = Vec::from_elem(heap, 0u16, plan.numbers().capacity as usize)?;
        Ok(Bench {
            plan,
            dots: None,
            state: [0; 6],
            ring,
        })
    }

    pub(crate) fn set_dots(&mut self, heap: Global, row: &[u32]) -> Result<Reply, Failure> {
        let count = row.len();
        let dots = self.plan.frame_dots();
        if count != dots as usize {
            return Err(Why::NotAllDots { count, dots }.into());
        }
        self.dots = Some(as_dots(heap, row)?);
        Ok(Reply::Kept)
    }

    pub(crate) fn set_state(&mut self, row: &[u32]) -> Result<Reply, Failure> {
        let plan = self.plan;
        let counts = Counts::resume(plan, row).map_err(|refusal| Turned::lent(
            &plan,
            row,
            Refusal::State(refusal),
        ))?;
        self.state = counts.state();
        Ok(Reply::Kept)
    }

    pub(crate) fn set_ring(&mut self, heap: Global, row: &[u32]) -> Result<Reply, Failure> {
        let length = row.len();
        if length != self.ring.len() {
            return Err(Turned::lent(&self.plan, &[], Refusal::Ring { length }).into());
        }
        self.ring = as_dots(heap, row)?;
        Ok(Reply::Kept)
    }

    pub(crate) fn tick(&mut self, heap: Global, row: &[u32]) -> Result<Reply, Failure> {
        let brought = as_dots(heap, row)?;
        let plan = <[u32; 7]>::from(self.plan.numbers());
        let exchange = try_tick(&plan, &mut self.state, &mut self.ring, &brought).map_err(
            |refusal| Turned::lent(&self.plan, &self.state, refusal),
        )?;
        Ok(Reply::Gives(exchange))
    }

    pub(crate) fn next(&self, heap: Global) -> Result<Reply, Failure> {
        let plan = <[u32; 7]>::from(self.plan.numbers());
        let part = next_dots(&plan, &self.state, &self.ring);
        Ok(Reply::Next(Vec::from_slice(heap, part)?))
    }
}
