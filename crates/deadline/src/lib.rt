// The rule as an entry: whether a plan can ever leave a dot missing, and if so which of its numbers is to blame.
#![tactic(auto)]

mod capacities;
mod eases;
mod examples;
mod judges;
mod verdicts;

pub use capacities::least_capacity;
pub use eases::is_no_harder;
pub use examples::{TightPlans, tight_plans, worked_plans};
pub use judges::{in_time, judge, judge_row};
pub use verdicts::Verdict;

#[cfg(test)]
mod tests {
    use super::*;
    use feeder::first_underrun_latest;
    use std::test::Fail;
    use timing::{Plan, PlanRefusal};

    #[test]
    fn numbers_of_the_worked_plans(rt: HostRuntime) {
        assert_eq!(rt; in_time(&[4000, 1, 0, 3, 5, 3, 3]), 0);
        assert_eq!(rt; in_time(&[4000, 1, 0, 500, 500, 2, 3]), 2);
        assert_eq!(rt; in_time(&[4000, 1, 0, 500, 4, 3, 3]), 3);
        assert_eq!(rt; in_time(&[4000, 1, 0, 2, 500, 3, 3]), 4);
        assert_eq!(rt; in_time(&[4000, 1, 0, 5, 9, 5, 5]), 0);
        assert_eq!(rt; in_time(&[8, 1, 0, 9, 5, 1, 2]), 2);
    }

    #[test]
    fn rows_that_are_no_plan(rt: HostRuntime) {
        assert_eq!(rt; in_time(&[]), 1);
        assert_eq!(rt; in_time(&[4000, 1, 0, 3, 5, 3, 3, 3]), 1);
        let verdict = judge_row(&[4000, 1, 0, 3, 2, 3, 3]);
        let refusal = PlanRefusal::OutOfRange {
            place: 5,
            least: 1,
            most: 2,
        };
        assert_eq!(rt; verdict, Verdict::TurnedAway(refusal));
    }

    #[test]
    fn one_more_or_one_less(rt: HostRuntime) {
        let verdict = judge_row(&[8, 2, 1, 6, 9, 5, 6]);
        assert_eq!(rt;
            verdict,
            Verdict::Slow {
                burst: 5,
                latency: 6,
            }
        );
        let verdict = judge_row(&[8, 2, 1, 5, 8, 5, 5]);
        assert_eq!(rt;
            verdict,
            Verdict::Cramped {
                capacity: 8,
                needed: 9,
                burst: 5,
                latency: 5,
            }
        );
        let verdict = judge_row(&[8, 2, 1, 4, 9, 5, 5]);
        assert_eq!(rt;
            verdict,
            Verdict::Sudden {
                vblank: 4,
                latency: 5,
            }
        );
        assert_eq!(rt; judge_row(&[8, 2, 1, 5, 9, 5, 5]), Verdict::InTime);
    }

    #[test]
    fn capacities(rt: HostRuntime) -> Result<(), Fail> {
        let plan = Plan::new(&[8, 2, 1, 5, 60, 5, 5])?;
        assert_eq!(rt; least_capacity(&plan), Some(9));
        assert_eq!(rt; least_capacity(&Plan::new(&[8, 2, 1, 4, 60, 5, 5])?), None);
        assert_eq!(rt; least_capacity(&Plan::new(&[8, 2, 1, 5, 60, 4, 5])?), None);
        let wider = Plan::new(&[9, 3, 0, 6, 61, 6, 4])?;
        assert!(rt; is_no_harder(&wider, &plan) && !is_no_harder(&plan, &wider));
        Ok(())
    }

    #[test]
    fn tight_plans_run_dry(rt: HostRuntime) -> Result<(), Fail> {
        assert!(rt; tight_plans(65_535).is_none());
        let Some(plans) = tight_plans(10) else {
            assert!(rt; false);
            return Ok(());
        };
        assert_eq!(rt; first_underrun_latest(plans.rate), Some(23));
        assert_eq!(rt; first_underrun_latest(plans.room), Some(24));
        assert_eq!(rt; first_underrun_latest(plans.lead), Some(0));
        Ok(())
    }
}
