// The FIFO's fill over a frame as a picture of text.
use scope::{Chart, Span};
use std::fmt;
use timing::Plan;

const ROWS: u32 = 16;

// What a column shows at a level: always that full, at times, or never.
fn cell(span: &Span, level: u32) -> &'static str {
    if span.least >= level {
        "#"
    } else if span.most >= level {
        ":"
    } else {
        " "
    }
}

// A frame by the latest memory, with a mark below the column in which a dot is first missing.
#[derive(Drop)]
pub struct Drawing {
    plan: Plan,
    chart: Chart,
    missing: Option<u32>,
}

impl Drawing {
    pub fn new(plan: Plan, missing: Option<u32>) -> Drawing {
        Drawing {
            plan,
            chart: Chart::of(plan),
            missing,
        }
    }

    // The column that a tick stands in.
    fn column_of(&self, tick: u32) -> usize {
        let count = self.chart.count;
        let ticks = self.plan.frame_ticks();
        let (each, longer) = (ticks / count.max(1), ticks % count.max(1));
        (1..=count)
            .map(|n| u64::from(n) * u64::from(each) + u64::from(n.min(longer)))
            .take_while(|end| *end <= u64::from(tick))
            .count()
    }

    fn write_cells<W: fmt::Write>(&self, level: u32, f: &mut fmt::Formatter<W>) -> fmt::Result {
        for span in self.chart.columns.iter().take(self.chart.count as usize) {
            f.write_str(cell(span, level))?;
        }
        f.write_str("\n")
    }

    // The top row says the room.
    fn write_rows<W: fmt::Write>(&self, f: &mut fmt::Formatter<W>) -> fmt::Result {
        let room = self.plan.numbers().capacity;
        let rows = room.min(ROWS);
        for row in (0..rows).rev() {
            if row + 1 == rows {
                write!(f, "{room:>5} |")?;
            } else {
                f.write_str("      |")?;
            }
            self.write_cells(row * room / rows + 1, f)?;
        }
        Ok(())
    }
}

impl fmt::Display for Drawing {
    fn fmt<W: fmt::Write>(&self, f: &mut fmt::Formatter<W>) -> fmt::Result {
        self.write_rows(f)?;
        let count = self.chart.count as usize;
        write!(f, "    0 +{:-<count$}\n", "")?;
        if let Some(tick) = self.missing {
            let column = self.column_of(tick);
            write!(f, "       {:column$}!\n", "")?;
        }
        let ticks = self.plan.frame_ticks();
        let each = ticks.div_ceil(self.chart.count.max(1));
        write!(
            f,
            "       {ticks} ticks, {each} to a column at most; # always that full, : at times\n"
        )
    }
}
