// Every command as text: read from a line, and written as one.
#![tactic(auto)]

mod commands;
mod flags;
mod keys;
mod rows;
mod writing;

pub use commands::Command;
pub use writing::{AsNumber, Row};

#[cfg(test)]
mod tests {
    use super::*;
    use std::alloc::Global;
    use std::process::Abort;
    use std::test::Fail;

    // What is written of what the line says.
    fn check_reads(rt: &impl Abort, heap: Global, line: &[u8], written: &str) -> Result<(), Fail> {
        match Command::read(heap, line)? {
            Some(command) => {
                assert_eq!(rt; command.write(heap)?.as_str(), written);
                Ok(())
            },
            None => {
                assert!(rt; false);
                Ok(())
            },
        }
    }

    #[test]
    fn every_command_reads_back(rt: HostRuntime) -> Result<(), Fail> {
        let lines = [
            "plan",
            "plan 0",
            "plan 3 2 1 6 6 3 2",
            "in time?",
            "run latest",
            "run by 0",
            "run by 1 0 0 1",
            "chart latest",
            "trace latest",
            "when 4294967295 0",
            "at 10",
            "dots",
            "dots 65535 7",
            "ring",
            "ring 1 2 3",
            "tick",
            "tick 9",
            "state",
            "state 0 0 0 0 0 0",
            "next",
            "help",
            "",
        ];
        for line in lines {
            check_reads(&rt, rt.alloc(), line.as_bytes(), line)?;
        }
        Ok(())
    }

    #[test]
    fn numbers_too_large_and_remarks(rt: HostRuntime) -> Result<(), Fail> {
        let heap = rt.alloc();
        check_reads(&rt, heap, b"at 4294967296", "at 4294967295")?;
        check_reads(
            &rt,
            heap,
            b"at 1000000000000000000000000000000000000000",
            "at 4294967295",
        )?;
        check_reads(&rt, heap, b"#x", "")?;
        check_reads(&rt, heap, b"#\xff", "")
    }

    #[test]
    fn rows_of_each_kind_of_number(rt: HostRuntime) -> Result<(), Fail> {
        let heap = rt.alloc();
        assert_eq!(rt;
            Row(&[0u32, 4294967295]).to_string(heap)?.as_str(),
            " 0 4294967295"
        );
        assert_eq!(rt; Row(&[65535u16, 7]).to_string(heap)?.as_str(), " 65535 7");
        assert_eq!(rt; Row(&[true, false]).to_string(heap)?.as_str(), " 1 0");
        Ok(())
    }

    #[test]
    fn unreadable_lines(rt: HostRuntime) -> Result<(), Fail> {
        let lines = [
            " ",
            " help",
            "help ",
            "helper",
            "Help",
            "in time",
            "In time?",
            "in  time?",
            "in time? 1",
            "run",
            "run latest 1",
            "run by",
            "run by ",
            "run by 2",
            "run by 01",
            "run by 1 4294967296",
            "when 1",
            "when 1 2 3",
            "at",
            "at 1 2",
            "at +1",
            "at -1",
            "at 01",
            "at 1x",
            "plan ",
            "plan  1",
            "plan 1 ",
            "plan 1,2",
            "plan1",
            "plan\t1",
            "state ",
            "tick é",
        ];
        for line in lines {
            assert!(rt;
                Command::read(rt.alloc(), line.as_bytes())?.is_none(),
                "{}",
                line
            );
        }
        assert!(rt; Command::read(rt.alloc(), b"at \xff1")?.is_none());
        Ok(())
    }
}
