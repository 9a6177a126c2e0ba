// Frames from first tick to last, with any memory and any screen.
#![tactic(auto)]

mod frames;
mod screens;
mod scripted;
mod underruns;

pub use frames::play;
pub use screens::Screen;
pub use scripted::Scripted;
pub use underruns::Underrun;

#[cfg(test)]
mod tests {
    use super::*;
    use fifo::{Answering, AtOnce, Latest, Numbered, Pixel, Refusal};
    use std::process::Abort;
    use std::test::Fail;
    use timing::Plan;

    const PLAN: [u32; 7] = [8, 2, 0, 6, 6, 3, 2];

    // What a panel got in its first ticks, `*` for a missing dot.
    #[derive(Drop)]
    struct Tape {
        pixels: [Pixel; 24],
        count: usize,
    }

    impl Screen for Tape {
        ghost accepts = { λ _ _ _. Unit {0} };

        fn show(&mut self, pixel: Pixel) {
            if self.count < 24 {
                self.pixels[self.count] = pixel;
            }
            self.count = self.count.saturating_add(1);
        }
    }

    // Frames of numbered dots by the latest memory: what is shown, and the first underrun.
    fn plays(
        rt: &impl Abort,
        row: &[u32; 7],
        frames: u32,
        ring: &mut [u16],
        shown: &[Pixel],
        first: Option<Underrun>,
    ) -> Result<(), Fail> {
        let plan = Plan::new(row)?;
        let mut tape = Tape {
            pixels: [Pixel::Dark; 24],
            count: 0,
        };
        let mut memory = Answering {
            picture: Numbered,
            willing: Latest,
        };
        assert_eq!(rt; play(plan, ring, &mut memory, &mut tape, frames)?, first);
        assert_eq!(rt;
            tape.count as u64,
            plan.frame_ticks() as u64 * frames as u64
        );
        for (pixel, expected) in tape.pixels.iter().zip(shown.iter()) {
            assert_eq!(rt; *pixel, *expected);
        }
        Ok(())
    }

    #[test]
    fn frames_of_the_latest_memory(rt: HostRuntime) -> Result<(), Fail> {
        let dark = Pixel::Dark;
        let missing = Pixel::Missing;
        // a ring of one place, twice
        let shown = [
            dark,
            Pixel::Dot(0),
            Pixel::Dot(1),
            dark,
            Pixel::Dot(0),
            Pixel::Dot(1),
        ];
        plays(&rt, &[2, 1, 0, 1, 1, 1, 1], 2, &mut [0], &shown, None)?;
        // a last burst that is short, and lines with blanking
        let shown = [
            dark,
            dark,
            dark,
            Pixel::Dot(0),
            Pixel::Dot(1),
            dark,
            Pixel::Dot(2),
            Pixel::Dot(3),
        ];
        plays(&rt, &[2, 2, 1, 2, 4, 3, 2], 1, &mut [0; 4], &shown, None)?;
        // the first two dots are missing, and those behind stand in their own ticks
        let shown = [missing, missing, Pixel::Dot(2), Pixel::Dot(3)];
        let first = Some(Underrun { frame: 0, tick: 0 });
        plays(&rt, &[4, 1, 0, 0, 4, 4, 2], 3, &mut [0; 4], &shown, first)?;
        // a ring that wraps many times
        plays(&rt, &[1000, 3, 0, 3, 5, 3, 3], 2, &mut [0; 5], &[], None)
    }

    #[test]
    fn a_ring_of_another_length_shows_nothing(rt: HostRuntime) -> Result<(), Fail> {
        let mut tape = Tape {
            pixels: [Pixel::Dark; 24],
            count: 0,
        };
        let mut memory = Answering {
            picture: Numbered,
            willing: AtOnce,
        };
        let played = play(Plan::new(&PLAN)?, &mut [0; 5], &mut memory, &mut tape, 1);
        assert_eq!(rt; played, Err(Refusal::Ring { length: 5 }));
        assert_eq!(rt; tape.count, 0);
        Ok(())
    }
}
