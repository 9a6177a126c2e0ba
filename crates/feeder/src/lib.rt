// The feeder: what it requests of the memory, tick by tick, and that by a plan in time no dot is ever missing.
#![tactic(auto)]

mod counts;
mod feeders;
mod lent;
mod outcomes;
mod refusals;
mod runs;
mod states;

pub use counts::Counts;
pub use feeders::Feeder;
pub use lent::StateRefusal;
pub use outcomes::Outcome;
pub use refusals::StepRefusal;
pub use runs::{first_underrun, first_underrun_latest, is_willing};
pub use states::Progress;

#[cfg(test)]
mod tests {
    use super::*;
    use std::test::Fail;
    use timing::Plan;

    // One line with no blanking before it, and the first tick in which the latest memory leaves a dot missing.
    fn latest(
        width: u32,
        burst: u32,
        capacity: u32,
        vblank: u32,
        latency: u32,
    ) -> Result<Option<u32>, Fail> {
        let plan = Plan::new(&[width, 1, 0, vblank, capacity, burst, latency])?;
        Ok(first_underrun_latest(plan))
    }

    #[test]
    fn plans_to_try(rt: HostRuntime) -> Result<(), Fail> {
        assert_eq!(rt; latest(4000, 3, 5, 3, 3)?, None);
        assert_eq!(rt; latest(4000, 2, 500, 500, 3)?, Some(1496));
        assert_eq!(rt; latest(4000, 3, 4, 500, 3)?, Some(503));
        assert_eq!(rt; latest(4000, 3, 500, 2, 3)?, Some(2));
        assert_eq!(rt; latest(4000, 5, 9, 5, 5)?, None);
        assert_eq!(rt; latest(8, 1, 5, 9, 2)?, None);
        assert_eq!(rt; latest(4000, 1, 5, 9, 2)?, Some(17));
        Ok(())
    }

    #[test]
    fn a_willing_memory_saves_it(rt: HostRuntime) -> Result<(), Fail> {
        let plan = Plan::new(&[8, 1, 0, 2, 6, 3, 3])?;
        assert_eq!(rt; first_underrun(plan, &[]), Some(2));
        assert_eq!(rt; first_underrun(plan, &[false, true]), None);
        assert_eq!(rt; first_underrun(plan, &[true]), Some(2));
        Ok(())
    }

    #[test]
    fn refusals_change_nothing(rt: HostRuntime) -> Result<(), Fail> {
        let plan = Plan::new(&[1, 1, 0, 2, 1, 1, 1])?;
        let mut feeder = Feeder::start(plan);
        assert_eq!(rt; feeder.step(true), Err(StepRefusal::NotPending));
        assert_eq!(rt; feeder.step(false), Ok(Outcome::Dark { requested: 1 }));
        assert_eq!(rt; feeder.step(false), Err(StepRefusal::Late { tick: 1 }));
        assert_eq!(rt; feeder.counts().tick(), 1);
        assert_eq!(rt; feeder.step(true), Ok(Outcome::Dark { requested: 0 }));
        assert_eq!(rt; feeder.step(false), Ok(Outcome::Dot { requested: 0 }));
        assert_eq!(rt; feeder.step(false), Err(StepRefusal::FrameOver));
        assert_eq!(rt; feeder.follow(true), None);
        assert_eq!(rt; feeder.counts().progress().arrived, 1);
        Ok(())
    }
}
