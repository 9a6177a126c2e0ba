// How small the FIFO may be.
ghost use Rattle.deadline.specs.Least.{NoCapacity, LeastCapacity};
ghost use Rattle.std.specs.Option.{MatchOption};

use timing::{Numbers, Plan};

// The least capacity by which a plan with these other numbers is in time; none where no capacity will do.
#[tactic(auto, using(timing::proofs::Goods::good_says, crate::proofs::Bounds::no_capacity))]
pub fn least_capacity(plan: &Plan) -> Option<u32>
    ensures { MatchOption result (NoCapacity plan.now.numbers) (LeastCapacity plan.now.numbers) }
{
    let Numbers {
        vblank,
        burst,
        latency,
        ..
    } = plan.numbers();
    let needed = burst + latency - 1;
    if latency > burst || latency > vblank || needed > Plan::MAX_CAPACITY {
        return None;
    }
    Some(needed)
}
