// Display timing: what a plan is, when the panel takes a dot, and which one.
#![tactic(auto)]

mod dots;
mod numbers;
mod plans;
mod positions;
mod refusals;
mod scans;

pub use dots::Dot;
pub use numbers::Numbers;
pub use plans::Plan;
pub use refusals::PlanRefusal;
pub use scans::Scan;

#[cfg(test)]
mod tests {
    use super::*;
    use std::test::Fail;

    fn place_of(row: &[u32]) -> Option<usize> {
        match Plan::new(row) {
            Ok(_) => None,
            Err(refusal) => Some(refusal.place()),
        }
    }

    #[test]
    fn the_smallest_plan(rt: HostRuntime) -> Result<(), Fail> {
        let plan = Plan::new(&[1, 1, 0, 0, 1, 1, 1])?;
        assert_eq!(rt; plan.line_ticks(), 1);
        assert_eq!(rt; plan.frame_ticks(), 1);
        assert_eq!(rt; plan.frame_dots(), 1);
        assert_eq!(rt; plan.dot_at(0), Some(Dot { x: 0, y: 0 }));
        assert_eq!(rt; plan.dot_at(1), None);
        assert_eq!(rt; plan.taken(1), 1);
        Ok(())
    }

    #[test]
    fn the_largest_plan(rt: HostRuntime) -> Result<(), Fail> {
        let plan = Plan::new(&[4096, 4096, 4096, 65536, 65536, 65536, 65536])?;
        assert_eq!(rt; plan.line_ticks(), 8192);
        assert_eq!(rt; plan.frame_ticks(), 33_619_968);
        assert_eq!(rt; plan.frame_dots(), 16_777_216);
        let last = Dot { x: 4095, y: 4095 };
        assert_eq!(rt; plan.tick_of(last), Some(33_619_967));
        assert_eq!(rt; plan.dot_at(33_619_967), Some(last));
        assert_eq!(rt; plan.taken(33_619_967), 16_777_215);
        assert_eq!(rt; plan.taken(u32::MAX), 16_777_216);
        assert!(rt; !plan.takes(u32::MAX));
        Ok(())
    }

    #[test]
    fn each_number_past_its_limit(rt: HostRuntime) {
        let wrong = [
            [0, 1, 0, 0, 1, 1, 1],
            [4097, 0, 0, 0, 1, 1, 1],
            [1, 0, 4097, 0, 1, 1, 1],
            [1, 4097, 0, 0, 1, 1, 1],
            [1, 1, 4097, 65537, 1, 1, 1],
            [1, 1, 0, 65537, 65537, 1, 1],
            [1, 1, 0, 0, 65537, 0, 1],
            [1, 1, 0, 0, 1, 0, 0],
            [1, 1, 0, 0, 1, 2, 0],
            [1, 1, 0, 0, 0, 1, 1],
            [1, 1, 0, 0, 1, 1, 0],
            [1, 1, 0, 0, 1, 1, 65537],
        ];
        let places = [0, 0, 1, 1, 2, 3, 4, 5, 5, 5, 6, 6];
        for (row, place) in wrong.iter().zip(places.iter()) {
            assert_eq!(rt; place_of(row), Some(*place));
        }
    }

    #[test]
    fn rows_of_another_length(rt: HostRuntime) {
        assert_eq!(rt; place_of(&[]), Some(0));
        assert_eq!(rt; place_of(&[1, 1, 0, 0, 1, 1]), Some(6));
        assert_eq!(rt; place_of(&[0, 0, 0, 0, 0, 0, 0, 0]), Some(7));
    }

    #[test]
    fn numbers_as_a_row(rt: HostRuntime) -> Result<(), Fail> {
        let row = [3, 2, 1, 6, 8, 4, 5];
        let numbers = Numbers::from(row);
        assert_eq!(rt; numbers.vblank, 6);
        assert_eq!(rt; Plan::new(&row)?.numbers(), numbers);
        assert_eq!(rt; <[u32; 7]>::from(numbers), row);
        Ok(())
    }

    #[test]
    fn a_frame_of_two_lines(rt: HostRuntime) -> Result<(), Fail> {
        // six dark ticks, then twice one dark tick and three dots
        let plan = Plan::new(&[3, 2, 1, 6, 6, 3, 2])?;
        assert_eq!(rt; plan.frame_ticks(), 14);
        assert_eq!(rt; plan.tick_of(Dot { x: 0, y: 0 }), Some(7));
        assert_eq!(rt; plan.tick_of(Dot { x: 2, y: 1 }), Some(13));
        assert_eq!(rt; plan.tick_of(Dot { x: 3, y: 0 }), None);
        assert_eq!(rt; plan.tick_of(Dot { x: 0, y: 2 }), None);
        assert_eq!(rt; plan.dot_at(6), None);
        assert_eq!(rt; plan.dot_at(10), None);
        assert_eq!(rt; plan.dot_at(11), Some(Dot { x: 0, y: 1 }));
        assert_eq!(rt; plan.taken(11), 3);
        Ok(())
    }

    #[test]
    fn a_scan_follows_the_ticks(rt: HostRuntime) -> Result<(), Fail> {
        let plan = Plan::new(&[3, 2, 1, 6, 6, 3, 2])?;
        let mut scan = Scan::start(plan);
        for tick in 0..plan.frame_ticks() {
            assert_eq!(rt; scan.tick(), tick);
            assert_eq!(rt; scan.takes(), plan.takes(tick));
            assert_eq!(rt; scan.taken(), plan.taken(tick));
            scan.advance();
        }
        assert!(rt; scan.is_over() && !scan.takes());
        assert_eq!(rt; scan.taken(), 6);
        assert!(rt; Scan::resume(plan, 15).is_none());
        Ok(())
    }
}
