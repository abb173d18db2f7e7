// Lines of every kind, on both sides of each limit: read, and written again where they are accepted.
#![tactic(auto)]

#[cfg(test)]
mod tests {
    use commands::{read, write};
    use counter::Counter;
    use payloads::Payload;
    use settings::Settings;
    use status::Transitions;
    use std::process::Abort;
    use std::test::Fail;
    use text::check_length;
    use times::{Clock, Place, Time};

    // What a line's refusal tells, its number and its place; an accepted line is written again as it was.
    fn verdict<E: Payload, T: Time>(
        rt: &impl Abort,
        line: &[u8],
        opened: bool,
    ) -> Result<(), (u8, usize)> {
        match read::<E, T>(line, opened) {
            Ok(command) => {
                assert_eq!(rt; write::<E, T>(command).digits(), line);
                Ok(())
            }
            Err(flaw) => Err(flaw.number_and_place()),
        }
    }

    // Reads each line of a table, and compares what comes of it with what stands beside it.
    fn check<E: Payload, T: Time>(
        rt: &impl Abort,
        opened: bool,
        cases: &[(&str, Result<(), (u8, usize)>)],
    ) {
        for (line, expected) in cases {
            assert_eq!(rt; verdict::<E, T>(rt, line.as_bytes(), opened), *expected);
        }
    }

    #[test]
    fn openings(rt: HostRuntime) {
        let cases = [
            ("0101010000", Ok(())),
            ("010302ffff", Ok(())),
            ("0102010001", Ok(())),
            ("0100010000", Err((0x17, 2))),
            ("0101000000", Err((0x17, 4))),
            ("0104030000", Err((0x17, 2))),
            ("01010100", Err((0x15, 8))),
            ("220000", Err((0x14, 0))),
        ];
        check::<Counter, Clock>(&rt, false, &cases);
        let cases = [("0101010000", Err((0x14, 0)))];
        check::<Counter, Clock>(&rt, true, &cases);
    }

    #[test]
    fn counters(rt: HostRuntime) {
        let cases = [
            ("10000000000000000a000f424000000000000f4240", Ok(())),
            (
                "10000000000000000a000f424100000000000f4240",
                Err((0x17, 18)),
            ),
            ("10000000000000000afff0bdc000000000000f4240", Ok(())),
            (
                "10000000000000000afff0bdbf00000000000f4240",
                Err((0x17, 18)),
            ),
            ("10000000000000000a00000000000f4240000f4240", Ok(())),
            (
                "10000000000000000a00000000000f4241000f4240",
                Err((0x17, 18)),
            ),
            (
                "10000000000000000a0000000000000000000f4241",
                Err((0x17, 18)),
            ),
            ("100000010000000000fff0bdbf00000000000f4240", Err((0x16, 2))),
            ("10000000000000000a000000000000000000000000", Ok(())),
        ];
        check::<Counter, Clock>(&rt, true, &cases);
    }

    #[test]
    fn masks(rt: HostRuntime) {
        let cases = [
            ("10000000000000000500", Ok(())),
            ("10000000000000000508ffff", Ok(())),
            ("1000000000000000050f0001000200030004", Ok(())),
            ("1000000000000000050500070009", Ok(())),
            ("100000000000000005050007", Err((0x15, 24))),
            ("1000000000000000051f0001000200030004", Err((0x17, 18))),
            ("100000000000000005f0", Err((0x17, 18))),
            ("100000000000000005", Err((0x15, 18))),
            ("10000001000000000000", Err((0x16, 2))),
        ];
        check::<Settings, Clock>(&rt, true, &cases);
    }

    #[test]
    fn events(rt: HostRuntime) {
        let cases = [
            ("10000000050000000101", Ok(())),
            ("1000000005000000010b", Ok(())),
            ("10000000050000000100", Err((0x17, 18))),
            ("1000000005000000010c", Err((0x17, 18))),
            ("1000000005000000010101", Err((0x15, 22))),
            ("20ffffffffffff80000000", Ok(())),
            ("210000ffffffff7fffffff", Ok(())),
            ("11ffff", Ok(())),
            ("220000", Ok(())),
        ];
        check::<Transitions, Place>(&rt, true, &cases);
    }

    #[test]
    fn texts(rt: HostRuntime) {
        let cases = [
            ("", Err((0x14, 0))),
            ("2", Err((0x13, 1))),
            ("2g", Err((0x12, 1))),
            ("2G0", Err((0x12, 1))),
            ("22000 ", Err((0x12, 5))),
            ("23", Err((0x14, 0))),
            ("2200", Err((0x15, 4))),
            ("200000000001000000000000", Err((0x15, 24))),
            ("2000000000010000000000", Err((0x16, 6))),
        ];
        check::<Counter, Clock>(&rt, true, &cases);
    }

    #[test]
    fn limits(rt: HostRuntime) -> Result<(), Fail> {
        let line = [b'0'; 65];
        let longer = verdict::<Counter, Clock>(&rt, &line, true);
        assert_eq!(rt; longer, Err((0x11, 64)));
        let longest = verdict::<Counter, Clock>(&rt, &line[0..64], true);
        assert_eq!(rt; longest, Err((0x14, 0)));
        let longer = vec![in rt.alloc(); b'#'; 32_769]?;
        assert!(rt; check_length(&longer[0..32_768]).is_ok());
        match check_length(&longer) {
            Ok(()) => Err(Fail::new("an input of 32,769 bytes was taken")),
            Err(flaw) => {
                assert_eq!(rt; flaw.number_and_place(), (0x18, 32_768));
                Ok(())
            },
        }
    }
}
