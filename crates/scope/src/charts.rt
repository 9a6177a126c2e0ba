// How full the FIFO is over a frame by the latest memory, in columns.
ghost use Rattle.std.specs.Prelude.{◌≡◌, ◌+◌, ◌<◌, ◌≤◌};
ghost use Rattle.timing.specs.Frame.{frame_ticks};
ghost use Rattle.feeder.specs.Step.{plan_in, tick_in};
ghost use Rattle.scope.specs.Fill.{Filled, Spanned, Charted};

use super::probes::Probe;
use super::spans::Span;
use timing::Plan;

// The fill at the next tick's end. That there is one is known of a loop's count, and no type's.
#[tactic(auto, unfolding(crate::specs::Fill::sample_in))]
fn next_fill(probe: &mut Probe) -> u32
    requires { tick_in probe.old.feeder.counts < frame_ticks (plan_in probe.old.feeder.counts) }
    ensures { Filled probe.old.feeder.counts result probe.new.feeder.counts }
{
    probe.sample().unwrap().fill
}

// Over the next ticks, one at least.
fn measure(probe: &mut Probe, ticks: u32) -> Span
    requires some { 1 ≤ ticks }
    requires inside { tick_in probe.old.feeder.counts + ticks ≤ frame_ticks (plan_in probe.old.feeder.counts) }
    ensures { Spanned probe.old.feeder.counts ticks result probe.new.feeder.counts }
{
    let first = next_fill(probe);
    let mut span = Span {
        least: first,
        most: first,
    };
    for _tick in 1..ticks {
        let fill = next_fill(probe);
        span = Span {
            least: span.least.min(fill),
            most: span.most.max(fill),
        };
    }
    span
}

// The frame's ticks in columns of one length, the first of them one tick longer where it does not divide evenly.
#[derive(Clone, Copy, Debug, PartialEq, Eq)]
pub struct Chart {
    pub columns: [Span; 80],
    // how many of them the frame fills: all, or as many as it has ticks
    pub count: u32,
}

impl Chart {
    pub const WIDTH: u32 = 80;

    #[tactic(auto, using(crate::proofs::Bands::frame_some))]
    pub fn of(plan: Plan) -> Chart
        ensures { Charted plan.numbers result }
    {
        let ticks = plan.frame_ticks();
        let count = ticks.min(Chart::WIDTH);
        let each = ticks / count;
        let longer = ticks % count;
        let mut probe = Probe::start(plan);
        let mut columns = [Span::default(); 80];
        for column in 0..count {
            let size = each + u32::from(column < longer);
            columns[column as usize] = measure(&mut probe, size);
        }
        Chart { columns, count }
    }
}
