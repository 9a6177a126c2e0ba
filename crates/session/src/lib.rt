// What is answered to each line: a plan at work, replies as values, and how they are written.
#![tactic(auto)]

mod benches;
mod failures;
mod replies;
mod sessions;
mod turned;
mod whys;

pub use benches::Bench;
pub use replies::Reply;
pub use sessions::{Answer, Session};
pub use turned::Turned;
pub use whys::{CountsWhy, PlanWhy, Why};

#[cfg(test)]
mod tests {
    use super::*;
    use std::alloc::Global;
    use std::process::Abort;
    use std::test::Fail;

    // What is said to a line.
    fn says(
        rt: &impl Abort,
        session: &mut Session,
        heap: Global,
        line: &[u8],
        expected: &str,
    ) -> Result<(), Fail> {
        match session.answer(heap, line)? {
            Answer::Say(reply) => {
                assert_eq!(rt; reply.to_string(heap)?.as_str(), expected);
            }
            _ => assert!(rt; false),
        }
        Ok(())
    }

    // To each line, after this plan.
    fn talk(rt: &impl Abort, heap: Global, lines: &[(&str, &str)]) -> Result<(), Fail> {
        let mut session = Session::new();
        says(
            rt,
            &mut session,
            heap,
            b"plan 8 2 0 6 6 3 2",
            "kept: 22 ticks, 16 dots\n",
        )?;
        for (line, expected) in lines {
            says(rt, &mut session, heap, line.as_bytes(), expected)?;
        }
        // nothing that was turned away has changed the plan
        says(rt, &mut session, heap, b"when 7 1", "tick 21\n")
    }

    #[test]
    fn plans_that_are_turned_away(rt: HostRuntime) -> Result<(), Fail> {
        talk(
            &rt,
            rt.alloc(),
            &[
                ("plan", "turned away 1 at 0: 0 numbers, a plan has 7\n"),
                (
                    "plan 8 2 0 6 6 3",
                    "turned away 1 at 6: 6 numbers, a plan has 7\n",
                ),
                (
                    "plan 8 2 0 6 6 3 2 1",
                    "turned away 1 at 7: 8 numbers, a plan has 7\n",
                ),
                (
                    "plan 0 2 0 6 6 3 2",
                    "turned away 1 at 0: dots in a line is 0, at least 1\n",
                ),
                (
                    "plan 8 4097 0 6 6 3 2",
                    "turned away 1 at 1: lines is 4097, at most 4096\n",
                ),
                (
                    "plan 8 2 4097 6 6 3 2",
                    "turned away 1 at 2: ticks before a line is 4097, at most 4096\n",
                ),
                (
                    "plan 8 2 0 65537 6 3 2",
                    "turned away 1 at 3: ticks before the picture is 65537, at most 65536\n",
                ),
                (
                    "plan 8 2 0 6 70000 3 2",
                    "turned away 1 at 4: room is 70000, at most 65536\n",
                ),
                (
                    "plan 8 2 0 6 6 7 2",
                    "turned away 1 at 5: at once is 7, at most 6\n",
                ),
                (
                    "plan 8 2 0 6 0 1 2",
                    "turned away 1 at 5: at once is 1, and there is no room for it\n",
                ),
                (
                    "plan 8 2 0 6 6 3 1000000000000000000000000000000000000000",
                    "turned away 1 at 6: latest is 4294967295 or more, at most 65536\n",
                ),
            ],
        )
    }

    #[test]
    fn states_that_are_turned_away(rt: HostRuntime) -> Result<(), Fail> {
        talk(
            &rt,
            rt.alloc(),
            &[
                (
                    "state 0 0 0 0 0",
                    "turned away 2 at 5: 5 numbers, a state has 6\n",
                ),
                (
                    "state 0 0 0 0 0 0 0",
                    "turned away 2 at 6: 7 numbers, a state has 6\n",
                ),
                (
                    "state 22 0 0 0 0 0",
                    "turned away 2 at 0: the tick is 22, and the picture has 22\n",
                ),
                (
                    "state 0 1 0 2 0 0",
                    "turned away 2 at 3: the mark is 2, at most 1\n",
                ),
                (
                    "state 0 0 0 0 0 2",
                    "turned away 2 at 5: the mark is 2, at most 1\n",
                ),
                (
                    "state 0 0 1 0 0 0",
                    "turned away 2 at 2: 1 have come, and 0 were asked for\n",
                ),
                (
                    "state 21 17 17 0 0 0",
                    "turned away 2 at 1: 17 were asked for, and the picture has 16\n",
                ),
                (
                    "state 0 7 7 0 0 0",
                    "turned away 2 at 1: 7 were asked for, and there is room up to 6\n",
                ),
                (
                    "state 0 3 0 1 2 0",
                    "turned away 2 at 4: it waited 2 ticks, and an answer takes 2\n",
                ),
                (
                    "state 0 3 3 1 0 0",
                    "turned away 2 at 3: it waits, and all 3 have come\n",
                ),
                (
                    "state 0 4 0 1 0 0",
                    "turned away 2 at 1: 4 are waited for, and 3 come at once\n",
                ),
                (
                    "state 0 3 0 0 0 0",
                    "turned away 2 at 1: 3 were asked for, 0 have come, and it does not wait\n",
                ),
                (
                    "state 0 3 3 0 1 0",
                    "turned away 2 at 4: it waited 1 ticks, and it does not wait\n",
                ),
                ("state", "0 0 0 0 0 0\n"),
            ],
        )
    }

    #[test]
    fn the_other_refusals(rt: HostRuntime) -> Result<(), Fail> {
        talk(
            &rt,
            rt.alloc(),
            &[
                (
                    "ring 1 2 3 4 5",
                    "turned away 3 at 5: 5 dots, and there is room for 6\n",
                ),
                (
                    "tick 7 8 9",
                    "turned away 4 at 3: 3 dots, and nothing is waited for\n",
                ),
                ("tick", "dark, 3 asked for\n"),
                (
                    "tick 7 8",
                    "turned away 4 at 2: 2 dots, and 3 are waited for\n",
                ),
                ("tick", "dark, 0 asked for\n"),
                (
                    "tick",
                    "turned away 5 at 2: nothing is brought, and the answer must come in this tick\n",
                ),
                ("state", "2 3 0 1 1 0\n"),
                ("look", "turned away 6 at 8: no command, see help\n"),
                (
                    "dots 1 2",
                    "turned away 6 at 9: 2 dots, and the picture has 16\n",
                ),
                (
                    "ring 1 2 3 4 5 65536",
                    "turned away 6 at 10: dot 5 is 65536, at most 65535\n",
                ),
                (
                    "tick 70000",
                    "turned away 6 at 11: dot 0 is 70000, at most 65535\n",
                ),
            ],
        )
    }

    #[test]
    fn hostile_lines(rt: HostRuntime) -> Result<(), Fail> {
        let heap = rt.alloc();
        let mut session = Session::new();
        says(&rt, &mut session, heap, b"in time?", "no plan yet\n")?;
        says(
            &rt,
            &mut session,
            heap,
            b"\xff\xfe",
            "turned away 6 at 1: no command, see help\n",
        )?;
        says(
            &rt,
            &mut session,
            heap,
            b"plan 4096 4096 4096 65536 65536 65536 65536",
            "kept: 33619968 ticks, 16777216 dots\n",
        )?;
        says(
            &rt,
            &mut session,
            heap,
            b"when 4095 4095",
            "tick 33619967\n",
        )?;
        // a number and a line of a megabyte
        let mut long = Vec::from_elem(heap, b'7', 1_000_000)?;
        says(
            &rt,
            &mut session,
            heap,
            long.as_slice(),
            "turned away 6 at 4: no command, see help\n",
        )?;
        let mut line = Vec::from_slice(heap, b"at ")?;
        line.extend_from_slice(long.as_slice())?;
        says(&rt, &mut session, heap, line.as_slice(), "none\n")?;
        assert!(rt; matches!(session.answer(heap, b"")?, Answer::Silence));
        assert!(rt; matches!(session.answer(heap, b"# any bytes \xff")?, Answer::Silence));
        Ok(())
    }
}
