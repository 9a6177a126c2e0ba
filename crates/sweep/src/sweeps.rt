// Rows of plans, each tried against the rule, and what that adds up to.
ghost use Rattle.std.specs.Prelude.{◌≡◌, ℕ, ◌<◌, List};
ghost use Rattle.sweep.specs.declared.trials.Trial.{Trial as AnyTrial};
ghost use Rattle.timing.specs.Row.{numbers_in};
ghost use Rattle.timing.specs.declared.plans.Plan.{Plan as GoodPlan};

use super::trials::{Trial, is_in_time};
use timing::Plan;

#[derive(Clone, Copy, Debug, Default, PartialEq, Eq)]
pub struct Swept {
    pub plans: u64,
    // those that are in time
    pub timely: u64,
    pub ways: u64,
    pub underruns: u64,
    pub disagreements: u64,
}

// Tries the plan of each row, where no trial of theirs disagrees with the rule.
pub(crate) fn try_rows<R: Fn(u32) -> [u32; 7], T: Fn(Plan) -> Trial>(
    rows: u32,
    row_at: R,
    attempt: T,
) -> Swept
    requires rows { R.IsAlwaysCallable row_at }
    requires attempts { T.IsAlwaysCallable attempt }
    requires agrees { (index : ℕ) (row : List ℕ) (plan : GoodPlan) (trial : AnyTrial) → index < 4294967296 → R.post row_at index row → plan.numbers ≡ numbers_in row → T.post attempt plan trial → trial.disagreements ≡ 0 }
    ensures { result.disagreements ≡ 0 }
{
    let mut all = Swept::default();
    for index in 0..rows {
        // a burst above the capacity is no plan
        let Ok(plan) = Plan::new(&row_at(index)) else {
            continue;
        };
        let trial = attempt(plan);
        all.plans += 1;
        all.timely += u64::from(is_in_time(&plan));
        all.ways += u64::from(trial.ways);
        all.underruns += u64::from(trial.underruns);
        all.disagreements += u64::from(trial.disagreements);
    }
    all
}
