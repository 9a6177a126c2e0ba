// The FIFO as a ring: ticks over lent numbers, and a typed FIFO with any memory.
#![tactic(auto)]

mod ends;
mod entries;
mod fifos;
mod loads;
mod memories;
mod outs;
mod pictures;
mod pixels;
mod refusals;
mod rings;

pub use ends::{Answering, AtOnce, ByList, Latest, Willing};
pub use entries::{accept, next_dots, tick, try_tick};
pub use fifos::Fifo;
pub use memories::Memory;
pub use outs::Out;
pub use pictures::{Indexed, Numbered, Picture, Stored};
pub use pixels::{Exchange, Pixel};
pub use refusals::Refusal;

#[cfg(test)]
mod tests {
    use super::*;
    use std::process::Abort;
    use std::test::Fail;
    use timing::Plan;

    const PLAN: [u32; 7] = [8, 2, 0, 6, 6, 3, 2];

    // A state that is refused with number 2, and stays as it was.
    fn refuses(rt: &impl Abort, state: &[u32; 6], number: u64) {
        let mut lent = *state;
        let mut ring = [7u16; 6];
        assert_eq!(rt;
            tick(&PLAN, &mut lent, &mut ring, &[]),
            Out::Refused(number)
        );
        assert!(rt; lent == *state);
        assert!(rt; ring == [7u16; 6]);
    }

    #[test]
    fn states_that_are_refused(rt: HostRuntime) {
        let wrong = [
            [22, 0, 0, 0, 0, 0],
            [0, 1, 0, 2, 0, 0],
            [0, 0, 0, 0, 0, 2],
            [0, 0, 1, 0, 0, 0],
            [21, 17, 17, 0, 0, 0],
            [0, 7, 7, 0, 0, 0],
            [0, 3, 0, 1, 2, 0],
            [0, 3, 3, 1, 0, 0],
            [0, 4, 0, 1, 0, 0],
            [0, 3, 0, 0, 0, 0],
            [0, 3, 3, 0, 1, 0],
        ];
        for state in wrong.iter() {
            refuses(&rt, state, 2);
        }
        refuses(&rt, &[0, 3, 0, 1, 1, 0], 5);
    }

    #[test]
    fn a_tick_writes_the_ring_where_it_wraps(rt: HostRuntime) {
        // dots 0 to 3 are taken, 6 have arrived, and 6 to 8 are brought
        let mut state = [10, 9, 6, 1, 0, 0];
        let mut ring = [0, 1, 2, 3, 4, 5];
        assert_eq!(rt;
            tick(&PLAN, &mut state, &mut ring, &[6, 7, 8]),
            Out::Dot(4, 0)
        );
        assert!(rt; ring == [6, 7, 8, 3, 4, 5]);
        assert!(rt; state == [11, 9, 9, 0, 0, 0]);
        assert!(rt; next_dots(&PLAN, &state, &ring) == [5].as_slice());
        assert!(rt; next_dots(&PLAN, &state, &ring[0..5]).is_empty());
    }

    #[test]
    fn a_missing_dot_is_not_replaced(rt: HostRuntime) {
        let plan = [4, 1, 0, 0, 2, 2, 1];
        let mut state = [0, 0, 0, 0, 0, 0];
        let mut ring = [0, 0];
        assert_eq!(rt; tick(&plan, &mut state, &mut ring, &[]), Out::Missing(2));
        assert_eq!(rt;
            tick(&plan, &mut state, &mut ring, &[10, 11]),
            Out::Dot(11, 2)
        );
        assert_eq!(rt;
            tick(&plan, &mut state, &mut ring, &[12, 13]),
            Out::Dot(12, 0)
        );
        assert_eq!(rt; tick(&plan, &mut state, &mut ring, &[]), Out::Dot(13, 0));
        assert_eq!(rt; tick(&plan, &mut state, &mut ring, &[]), Out::Refused(2));
    }

    #[test]
    fn the_other_refusals(rt: HostRuntime) {
        let mut state = [0, 3, 0, 1, 0, 0];
        let mut ring = [0; 6];
        assert_eq!(rt;
            tick(&PLAN[0..6], &mut state, &mut ring, &[]),
            Out::Refused(1)
        );
        assert_eq!(rt;
            tick(&PLAN, &mut state, &mut ring[0..5], &[]),
            Out::Refused(3)
        );
        assert_eq!(rt;
            tick(&PLAN, &mut state, &mut ring, &[1, 2]),
            Out::Refused(4)
        );
        assert_eq!(rt;
            tick(&PLAN, &mut state, &mut ring, &[1, 2, 3, 4]),
            Out::Refused(4)
        );
        assert_eq!(rt; Refusal::Late { tick: 9 }.place(), 9);
        assert!(rt; state == [0, 3, 0, 1, 0, 0]);
    }

    // A tick that is refused, and leaves the state and the ring as they were.
    fn refuses_at(
        rt: &impl Abort,
        plan: &[u32],
        state: &[u32; 6],
        brought: &[u16],
        number: u64,
        place: usize,
    ) -> Result<(), Fail> {
        let mut lent = *state;
        let mut ring = [7u16; 6];
        match try_tick(plan, &mut lent, &mut ring, brought) {
            Ok(_) => return Err("accepted".into()),
            Err(refusal) => {
                assert_eq!(rt; refusal.number(), number);
                assert_eq!(rt; refusal.place(), place);
            }
        }
        assert_eq!(rt;
            tick(plan, &mut lent, &mut ring, brought),
            Out::Refused(number)
        );
        assert!(rt; lent == *state);
        assert!(rt; ring == [7u16; 6]);
        Ok(())
    }

    #[test]
    fn states_that_are_refused_and_where(rt: HostRuntime) -> Result<(), Fail> {
        let wrong = [
            ([22, 0, 0, 0, 0, 0], 0),
            ([0, 1, 0, 2, 0, 0], 3),
            ([0, 0, 0, 0, 0, 2], 5),
            ([0, 0, 1, 0, 0, 0], 2),
            ([21, 17, 17, 0, 0, 0], 1),
            ([0, 7, 7, 0, 0, 0], 1),
            ([0, 3, 0, 1, 2, 0], 4),
            ([0, 3, 3, 1, 0, 0], 3),
            ([0, 4, 0, 1, 0, 0], 1),
            ([0, 3, 0, 0, 0, 0], 1),
            ([0, 3, 3, 0, 1, 0], 4),
        ];
        for (state, place) in wrong.iter() {
            refuses_at(&rt, &PLAN, state, &[], 2, *place)?;
        }
        Ok(())
    }

    #[test]
    fn states_at_the_borders_are_accepted(rt: HostRuntime) {
        let right = [
            [21, 16, 16, 0, 0, 1],
            [0, 6, 6, 0, 0, 0],
            [7, 7, 6, 1, 0, 0],
            [0, 3, 0, 1, 0, 0],
            [0, 6, 3, 1, 0, 0],
            [0, 0, 0, 0, 0, 0],
        ];
        for state in right.iter() {
            let mut lent = *state;
            assert!(rt; try_tick(&PLAN, &mut lent, &mut [0; 6], &[]).is_ok());
            assert_eq!(rt; lent[0], state[0].wrapping_add(1));
        }
    }

    #[test]
    fn the_other_refusals_and_where(rt: HostRuntime) -> Result<(), Fail> {
        let pending = [0, 3, 0, 1, 0, 0];
        refuses_at(&rt, &PLAN[0..6], &pending, &[], 1, 6)?;
        refuses_at(&rt, &[8, 2, 0, 6, 6, 3, 2, 0], &pending, &[], 1, 7)?;
        refuses_at(&rt, &[8, 2, 0, 6, 6, 7, 2], &pending, &[], 1, 5)?;
        refuses_at(&rt, &[8, 2, 0, 6, 5, 3, 2], &pending, &[], 3, 6)?;
        refuses_at(&rt, &PLAN, &pending, &[1, 2], 4, 2)?;
        refuses_at(&rt, &PLAN, &pending, &[1, 2, 3, 4], 4, 4)?;
        refuses_at(&rt, &PLAN, &[0; 6], &[1, 2, 3], 4, 3)?;
        refuses_at(&rt, &PLAN, &[9, 3, 0, 1, 1, 0], &[], 5, 9)?;
        let mut few = [0, 0, 0, 0, 0];
        let Err(refusal) = try_tick(&PLAN, &mut few, &mut [0; 6], &[]) else {
            return Err("accepted".into());
        };
        assert_eq!(rt; refusal.place(), 5);
        Ok(())
    }

    // A frame of the plan above, whose dots are numbered from 10.
    fn play<M: Memory>(
        rt: &impl Abort,
        plan: Plan,
        ring: &mut [u16],
        memory: &mut M,
    ) -> Result<(), Fail> {
        let mut fifo = Fifo::start(plan);
        let mut next = 10u16;
        for tick in 0..plan.frame_ticks() {
            let pixel = fifo.step(ring, memory)?;
            if plan.takes(tick) {
                assert_eq!(rt; pixel, Pixel::Dot(next));
                next = next.wrapping_add(1);
            } else {
                assert_eq!(rt; pixel, Pixel::Dark);
            }
        }
        assert_eq!(rt; next, 26);
        assert!(rt; !fifo.feeder().counts().progress().pending);
        assert!(rt; fifo.step(ring, memory).is_err());
        Ok(())
    }

    #[test]
    fn a_frame_from_the_latest_memory(rt: HostRuntime) -> Result<(), Fail> {
        let dots = [
            10, 11, 12, 13, 14, 15, 16, 17, 18, 19, 20, 21, 22, 23, 24, 25,
        ];
        play(
            &rt,
            Plan::new(&PLAN)?,
            &mut [0; 6],
            &mut Answering {
                picture: Stored { dots: &dots },
                willing: Latest,
            },
        )
    }

    #[test]
    fn a_willing_memory_saves_it(rt: HostRuntime) -> Result<(), Fail> {
        let plan = Plan::new(&[4, 1, 0, 1, 4, 4, 3])?;
        let picture = Stored {
            dots: &[1, 2, 3, 4],
        };
        let mut ring = [0; 4];
        let mut latest = Answering {
            picture,
            willing: Latest,
        };
        let mut late = Fifo::start(plan);
        assert_eq!(rt; late.step(&mut ring, &mut latest)?, Pixel::Dark);
        assert_eq!(rt; late.step(&mut ring, &mut latest)?, Pixel::Missing);
        let mut at_once = Answering {
            picture,
            willing: AtOnce,
        };
        let mut by_list = Answering {
            picture,
            willing: ByList(&[false, true]),
        };
        let mut early = Fifo::start(plan);
        assert_eq!(rt; early.step(&mut ring, &mut at_once)?, Pixel::Dark);
        assert_eq!(rt; early.step(&mut ring, &mut by_list)?, Pixel::Dot(1));
        let mut listed = Fifo::start(plan);
        assert_eq!(rt; listed.step(&mut ring, &mut by_list)?, Pixel::Dark);
        assert_eq!(rt; listed.step(&mut ring, &mut by_list)?, Pixel::Dot(1));
        Ok(())
    }

    // A picture that is handed out by bursts alone.
    #[derive(Clone, Copy)]
    struct Bursts<'a> {
        behind: Stored<'a>,
    }

    impl<'a> Picture for Bursts<'a> {
        ghost use Rattle.std.specs.Prelude.{slice_index};

        ghost dots = { λ p k. slice_index p.behind.dots.now k };

        fn copy(&self, first: u32, part: &mut [u16]) {
            self.behind.copy(first, part);
        }
    }

    // A memory of which nothing is known but its dots: it is willing each third time that it is asked.
    #[derive(Clone, Copy)]
    struct Whim<'a> {
        picture: Bursts<'a>,
        asked: u32,
    }

    impl<'a> Memory for Whim<'a> {
        ghost use Rattle.std.specs.Prelude.{true, slice_index};

        ghost script = { λ m. record { dots = λ f k. slice_index m.picture.behind.dots.now k; may = λ f t said. true } };

        fn willing(&mut self, _tick: u32) -> bool {
            self.asked = self.asked.wrapping_add(1);
            self.asked.is_multiple_of(3)
        }

        fn read(&mut self, first: u32, part: &mut [u16]) {
            self.picture.copy(first, part);
        }
    }

    #[test]
    fn a_frame_from_a_memory_of_which_nothing_is_known(rt: HostRuntime) -> Result<(), Fail> {
        let dots = [
            10, 11, 12, 13, 14, 15, 16, 17, 18, 19, 20, 21, 22, 23, 24, 25,
        ];
        play(
            &rt,
            Plan::new(&PLAN)?,
            &mut [0; 6],
            &mut Whim {
                picture: Bursts {
                    behind: Stored { dots: &dots },
                },
                asked: 0,
            },
        )
    }

    #[test]
    fn numbered_dots_begin_again_at_65536(rt: HostRuntime) {
        let mut part = [0; 3];
        Numbered.copy(65_535, &mut part);
        assert!(rt; part == [65535, 0, 1]);
    }
}
