// Plans that show what the rule is worth: none of its conditions can be had for less, and plans worked out to the tick.
ghost use Rattle.std.specs.Prelude.{◌≡◌, ◌<◌, true, map, MatchOption};
ghost use Rattle.deadline.specs.Tight.{Tight};
ghost use Rattle.deadline.specs.Verdict.{is_plan};
ghost use Rattle.deadline.specs.Worked.{worked_numbers, Worked};
ghost use Rattle.timing.specs.Row.{numbers_in};
ghost use Rattle.timing.specs.declared.plans.Plan.{Plan as GoodPlan};

use timing::Plan;

// Plans that miss one condition by one, named by it: a dot is missing in each.
#[derive(Clone, Copy, Debug, PartialEq, Eq)]
pub struct TightPlans {
    pub rate: Plan,
    pub room: Plan,
    pub lead: Plan,
}

// A plan from numbers that are known to be good.
fn settled(row: &[u32]) -> Plan
    requires { is_plan row.now ≡ true }
    ensures { result.numbers ≡ numbers_in row.now }
{
    Plan::new(row).unwrap()
}

// The numbers that the other two conditions bound from below are `size` or more; none where such numbers are no plan.
#[tactic(auto, using(std::proofs::lemmas::Bool::Decides::nat_tests, crate::proofs::Bounds::rate_tight, crate::proofs::Bounds::room_tight, crate::proofs::Bounds::lead_tight), unfolding(timing::specs::Good::good, timing::specs::Row::numbers_in))]
pub fn tight_plans(size: u32) -> Option<TightPlans>
    ensures { MatchOption result (65534 < size) (Tight size) }
{
    if size > Plan::MAX_CAPACITY - 2 {
        return None;
    }
    let (more, large) = (size + 1, size + 2);
    Some(TightPlans {
        rate: settled(&[4096, 4096, 0, large, large, 1, 2]),
        room: settled(&[4096, 4096, 0, large, large, large, 2]),
        lead: settled(&[4096, 4096, 0, 0, more, more, 1]),
    })
}

// One line with no blanking before it: two that are in time, three that miss one condition each, and one that is not in time and still has its dots on a short line, with the same on a long one.
#[tactic(auto, using(crate::proofs::Computed::worked), unfolding(timing::specs::Good::good, timing::specs::Row::numbers_in))]
pub fn worked_plans() -> [Plan; 7]
    ensures numbers { map (λ (q : GoodPlan). q.numbers) result ≡ worked_numbers }
    ensures worked { Worked }
{
    // a call for each row: a `map` over the rows names each no shorter
    [
        settled(&[4000, 1, 0, 3, 5, 3, 3]),
        settled(&[4000, 1, 0, 500, 500, 2, 3]),
        settled(&[4000, 1, 0, 500, 4, 3, 3]),
        settled(&[4000, 1, 0, 2, 500, 3, 3]),
        settled(&[4000, 1, 0, 5, 9, 5, 5]),
        settled(&[8, 1, 0, 9, 5, 1, 2]),
        settled(&[4000, 1, 0, 9, 5, 1, 2]),
    ]
}
