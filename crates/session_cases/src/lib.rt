// Sessions of each kind of effect on each kind of time, with every refusal that a line can meet. What is expected is
// worked out by hand from the rules; a remark has no answer.
#![tactic(auto)]

#[cfg(test)]
mod tests {
    use bases::Image;
    use session::answer_input;
    use std::alloc::{AllocError, Global};
    use std::process::Abort;
    use std::test::Fail;

    // Before the opening. Kinds, and so times and payloads, are not known yet: every other code is refused with 14.
    const CLOSED: [(&str, &str); 12] = [
        ("# a remark, and then one character too many", ""),
        (
            "00000000000000000000000000000000000000000000000000000000000000000",
            "00110040",
        ),
        ("0101010320\r", "0012000a"),
        ("010101032", "00130009"),
        ("", "00140000"),
        ("00", "00140000"),
        ("220000", "00140000"),
        ("01010103", "01150008"),
        ("010101032000", "0115000c"),
        ("0100010320", "01170002"),
        ("0104030320", "01170002"),
        ("0103030320", "01170004"),
    ];

    // After operations 1 to 3 were entered and 2 was withdrawn, whatever the kinds: 4 is the latest belief, and has 1 and 3.
    const OPEN: [(&str, &str); 24] = [
        ("0101010320", "00140000"),
        ("", "00140000"),
        (" # a frame that begins with a space", "00120000"),
        ("22000A", "00120005"),
        ("22000", "00130005"),
        ("23", "00140000"),
        ("10", "10150002"),
        ("1100", "11150004"),
        ("20000400000000000000", "20150014"),
        ("210004000000000000000000", "21150018"),
        ("22000400", "22150008"),
        ("220000", "22000000"),
        ("220003", "22000003"),
        ("220004", "22000002"),
        ("220005", "22210005"),
        ("2000050000000000000000", "20210005"),
        ("21ffff0000000000000000", "2121ffff"),
        ("110000", "11220000"),
        ("110002", "11220002"),
        ("110004", "11220004"),
        ("11ffff", "1122ffff"),
        ("110001", "11000005"),
        ("220005", "22000001"),
        ("220004", "22000002"),
    ];

    // Lines and their answers, joined: an input and the output that is expected.
    #[derive(Drop)]
    struct Script {
        input: Vec<u8>,
        expected: Vec<u8>,
    }

    impl Script {
        fn new(heap: Global) -> Script {
            Script {
                input: Vec::new(heap),
                expected: Vec::new(heap),
            }
        }

        // Each line ends with a newline, and no answer is no line: a `Some` around each answer, for the one remark that has
        // none, would be no plainer.
        fn add(&mut self, lines: &[(&str, &str)]) -> Result<(), AllocError> {
            for (line, answer) in lines {
                self.input.extend_from_slice(line.as_bytes())?;
                self.input.push(b'\n')?;
                if !answer.is_empty() {
                    self.expected.extend_from_slice(answer.as_bytes())?;
                    self.expected.push(b'\n')?;
                }
            }
            Ok(())
        }

        fn check(&self, rt: &(impl Abort + AllocGlobal), bytes: usize) -> Result<(), Fail> {
            writes(rt, bytes, self.input.as_slice(), self.expected.as_slice())
        }
    }

    // A record over an image of so many bytes answers the input so.
    fn writes(
        rt: &(impl Abort + AllocGlobal),
        bytes: usize,
        input: &[u8],
        expected: &[u8],
    ) -> Result<(), Fail> {
        let image = Image::open(vec![in rt.alloc(); 0u8; bytes]?);
        let (_record, output) = answer_input(rt.alloc(), image, input)?;
        assert!(rt; output.as_slice() == expected);
        Ok(())
    }

    // The same of lines and their answers.
    fn answers(
        rt: &(impl Abort + AllocGlobal),
        bytes: usize,
        lines: &[(&str, &str)],
    ) -> Result<(), Fail> {
        let mut script = Script::new(rt.alloc());
        script.add(lines)?;
        script.check(rt, bytes)
    }

    // The same of a whole session over 800 cells: lines before the opening, those of a kind, and those of every kind.
    fn session(rt: &(impl Abort + AllocGlobal), lines: &[(&str, &str)]) -> Result<(), Fail> {
        let mut script = Script::new(rt.alloc());
        script.add(&CLOSED)?;
        script.add(lines)?;
        script.add(&OPEN)?;
        script.check(rt, 44_800)
    }

    // Set 100,000 at 10, take 90,000 at 30 and, late, take 30,000 at 20; then without the 90,000.
    // 100,000 - 90,000 = 10,000 (2710); 100,000 - 30,000 = 70,000 (11170), and less 90,000 it is at the floor, 0.
    #[test]
    fn counter_on_clock(rt: HostRuntime) -> Result<(), Fail> {
        let lines = [
            ("0101010320", "0100"),
            ("10000000000000000a00000000000186a0000186a0", "10000001"),
            ("10000000000000001efffea07000000000000f4240", "10000002"),
            ("100000000000000014ffff8ad000000000000f4240", "10000003"),
            ("110002", "11000004"),
            ("200002000000000000001e", "20000000000000002710"),
            ("200003000000000000001e", "20000000000000000000"),
            ("200003000000000000001d", "20000000000000011170"),
            ("200004000000ffffffffff", "20000000000000011170"),
            ("2000040000000000000009", "20000000000000000000"),
            ("210003000000000000001e", "2100010002000000000000001e"),
            ("210004000000000000001e", "21000100030000000000000014"),
            ("2100040000000000000009", "210000"),
            // the time is no clock's, nor has the payload an amount, nor is there such a belief: the time comes first
            ("100000010000000000fff0bdbf00000000000f4240", "10160002"),
            ("20ffff0000010000000000", "20160006"),
            ("210000ffffffffffffffff", "21160006"),
            // -1,000,001; a floor above the ceiling; a byte too few
            ("10000000000000000afff0bdbf00000000000f4240", "10170012"),
            ("10000000000000000a000000000000000800000007", "10170012"),
            ("10000000000000000a0000000000000000000f42", "10150028"),
        ];
        session(&rt, &lines)
    }

    // Set 50 and take 20, both at job 5 layer 0, and late, add 1,000 on the raft, at layer -1; then without the 20.
    // 50 - 20 = 30 (1e); on the raft 1,000 (3e8), which the setting to 50 (32) then overrides.
    #[test]
    fn counter_on_place(rt: HostRuntime) -> Result<(), Fail> {
        let lines = [
            ("0101020320", "0100"),
            ("100000000500000000000000000000003200000032", "10000001"),
            ("100000000500000000ffffffec00000000000f4240", "10000002"),
            ("1000000005ffffffff000003e800000000000f4240", "10000003"),
            ("110002", "11000004"),
            ("2000020000000500000000", "2000000000000000001e"),
            ("20000200000005ffffffff", "20000000000000000000"),
            ("20000300000005ffffffff", "200000000000000003e8"),
            ("2000030000000500000000", "2000000000000000001e"),
            ("2000040000000500000000", "20000000000000000032"),
            ("2100030000000500000000", "21000100020000000500000000"),
            ("21000300000005ffffffff", "210001000300000005ffffffff"),
            ("2100040000000680000000", "21000100010000000500000000"),
            ("210004000000047fffffff", "210000"),
            // a ceiling of 1,000,001; a byte too many
            ("1000000005000000000000000000000000000f4241", "10170012"),
            ("1000000005000000000000000000000000000f424000", "1015002c"),
        ];
        session(&rt, &lines)
    }

    // {batch: 7} and {batch: 9, nozzle: 4}, both at 8, and late, {nozzle: 1, profile: ffff} at 5; then without the second.
    #[test]
    fn settings_on_clock(rt: HostRuntime) -> Result<(), Fail> {
        let lines = [
            ("0102010320", "0100"),
            ("100000000000000008010007", "10000001"),
            ("1000000000000000080300090004", "10000002"),
            ("1000000000000000050a0001ffff", "10000003"),
            ("110002", "11000004"),
            ("2000010000000000000008", "20000007000000000000"),
            ("2000020000000000000008", "20000009000400000000"),
            ("2000030000000000000008", "2000000900040000ffff"),
            ("2000030000000000000007", "2000000000010000ffff"),
            ("2000040000000000000008", "2000000700010000ffff"),
            ("2000040000000000000004", "20000000000000000000"),
            ("2100030000000000000008", "21000100020000000000000008"),
            ("2100040000000000000008", "21000100010000000000000008"),
            ("2100040000000000000007", "21000100030000000000000005"),
            ("2100040000000000000004", "210000"),
            ("10000001000000000000", "10160002"),
            ("2000040000010000000000", "20160006"),
            // masks beyond 0f: four values for 1f, none for f0; one value for two fields; no mask
            ("1000000000000000081f0001000200030004", "10170012"),
            ("100000000000000008f0", "10170012"),
            ("100000000000000008050007", "10150018"),
            ("100000000000000008", "10150012"),
        ];
        session(&rt, &lines)
    }

    // {plate: ab, profile: 1} at job 1 layer 2, then at the lowest layer of job 1 {batch: 1234, plate: 3, profile: ffff}, and all
    // four fields at the highest layer of job 0: each late to the one before. Then without the second.
    #[test]
    fn settings_on_place(rt: HostRuntime) -> Result<(), Fail> {
        let lines = [
            ("0102020320", "0100"),
            ("1000000001000000020c00ab0001", "10000001"),
            ("1000000001800000000d12340003ffff", "10000002"),
            ("10000000007fffffff0f0001000200030004", "10000003"),
            ("110002", "11000004"),
            ("2000010000000100000002", "20000000000000ab0001"),
            ("2000020000000100000002", "20001234000000ab0001"),
            ("2000020000000100000001", "2000123400000003ffff"),
            ("2000030000000100000002", "20001234000200ab0001"),
            ("200003000000007fffffff", "20000001000200030004"),
            ("200003000000007ffffffe", "20000000000000000000"),
            ("2000040000000100000002", "20000001000200ab0001"),
            ("2100030000000100000001", "21000100020000000180000000"),
            ("2100040000000100000001", "2100010003000000007fffffff"),
            ("21000400000000ffffffff", "210000"),
            // a mask of 10; three values for four fields
            ("10000000010000000210", "10170012"),
            ("1000000001000000020f000100020003", "10150020"),
        ];
        session(&rt, &lines)
    }

    // Power on at 10, out of service at 20 and, late, into service at 15; then without the second.
    // 0 becomes 1, 1 becomes 6, and 6 becomes 1 again.
    #[test]
    fn status_on_clock(rt: HostRuntime) -> Result<(), Fail> {
        let lines = [
            ("0103010320", "0100"),
            ("10000000000000000a01", "10000001"),
            ("1000000000000000140a", "10000002"),
            ("10000000000000000f09", "10000003"),
            ("110002", "11000004"),
            ("2000020000000000000013", "20000000000000000001"),
            ("2000030000000000000013", "20000000000000000006"),
            ("2000030000000000000014", "20000000000000000001"),
            ("2000040000000000000014", "20000000000000000006"),
            ("2000040000000000000009", "20000000000000000000"),
            ("2100030000000000000014", "21000100020000000000000014"),
            ("210004000000ffffffffff", "2100010003000000000000000f"),
            ("2100040000000000000009", "210000"),
            ("1000000100000000000b", "10160002"),
            ("2100040000010000000000", "21160006"),
            // there are no events 00 and 0c; two events
            ("10000000000000000a00", "10170012"),
            ("10000000000000000a0c", "10170012"),
            ("10000000000000000a0101", "10150016"),
        ];
        session(&rt, &lines)
    }

    // Heat and start, both at job 5 layer 1, and late, power on on the raft, at layer -1; then without the start.
    // Off, neither does anything; once on, 1 becomes 2, and 2 becomes 3.
    #[test]
    fn status_on_place(rt: HostRuntime) -> Result<(), Fail> {
        let lines = [
            ("0103020320", "0100"),
            ("10000000050000000103", "10000001"),
            ("10000000050000000104", "10000002"),
            ("1000000005ffffffff01", "10000003"),
            ("110002", "11000004"),
            ("2000020000000500000001", "20000000000000000000"),
            ("2000030000000500000001", "20000000000000000003"),
            ("2000030000000500000000", "20000000000000000001"),
            ("20000300000005fffffffe", "20000000000000000000"),
            ("2000040000000500000001", "20000000000000000002"),
            ("2100030000000500000001", "21000100020000000500000001"),
            ("2100040000000500000001", "21000100010000000500000001"),
            ("2100040000000500000000", "210001000300000005ffffffff"),
            ("210004000000047fffffff", "210000"),
            // there is no event ff; no event
            ("100000000500000001ff", "10170012"),
            ("100000000500000001", "10150012"),
        ];
        session(&rt, &lines)
    }

    // The first entry takes one cell. So a quota of 42 (2a) has 41 (29) left for the next change, whatever the kinds;
    // what is wrong with the change itself is said first.
    #[test]
    fn quotas(rt: HostRuntime) -> Result<(), Fail> {
        let entries = [
            ("010101002a", "10000000000000000000000000000186a0000186a0"),
            ("010102002a", "1000000005ffffffff000186a000000000000f4240"),
            ("010201002a", "10000000000000000500"),
            ("010202002a", "1000000005ffffffff08ffff"),
            ("010301002a", "1000000000000000050b"),
            ("010302002a", "1000000005ffffffff0b"),
        ];
        for (opening, entry) in entries {
            let lines = [
                (opening, "0100"),
                (entry, "10000001"),
                (entry, "10310029"),
                ("110002", "11220002"),
                ("110001", "11310029"),
                ("220001", "22000001"),
                ("220002", "22210002"),
            ];
            answers(&rt, 44_800, &lines)?;
        }
        let lines = [
            ("0103010000", "0100"),
            ("1000000000000000050b", "10310000"),
            ("220000", "22000000"),
        ];
        answers(&rt, 44_800, &lines)
    }

    // 2,352 bytes are 42 cells, and one byte less has room for 41 (29). The allowance comes before the space.
    #[test]
    fn spaces(rt: HostRuntime) -> Result<(), Fail> {
        let lines = [
            ("010301ffff", "0100"),
            ("1000000000000000050b", "10320029"),
            ("110001", "11220001"),
            ("2100000000000000000005", "210000"),
        ];
        answers(&rt, 2_351, &lines)?;
        let lines = [
            ("010301ffff", "0100"),
            ("1000000000000000050b", "10000001"),
            ("1000000000000000050b", "10320029"),
            ("110001", "11320029"),
            ("2100010000000000000005", "21000100010000000000000005"),
        ];
        answers(&rt, 2_352, &lines)?;
        let lines = [("0103010028", "0100"), ("1000000000000000050b", "10310028")];
        answers(&rt, 2_351, &lines)
    }

    // One entry after another, each but the last withdrawn again: 512 entries and 511 withdrawals make belief 1,023, the last.
    // An entry into nothing takes one cell and a withdrawal three at most, so that 512 + 3 * 511 + 42 = 2,087 cells do.
    #[test]
    fn beliefs(rt: HostRuntime) -> Result<(), Fail> {
        let heap = rt.alloc();
        let mut script = Script::new(heap);
        script.add(&[("010301ffff", "0100")])?;
        for number in (1u16..1_023).step_by(2) {
            let next = number + 1;
            let withdrawal = format!(in heap; "11{number:04x}")?;
            let entered = format!(in heap; "1000{number:04x}")?;
            let withdrawn = format!(in heap; "1100{next:04x}")?;
            let lines = [
                ("10000000000000000501", entered.as_str()),
                (withdrawal.as_str(), withdrawn.as_str()),
            ];
            script.add(&lines)?;
        }
        let lines = [
            ("10000000000000000501", "100003ff"),
            ("10000000000000000501", "102303ff"),
            ("1103ff", "112303ff"),
            ("110001", "112303ff"),
            ("10000001000000000001", "10160002"),
            ("10000000000000000500", "10170012"),
            ("2003ff0000000000000005", "20000000000000000001"),
            ("2003fe0000000000000005", "20000000000000000000"),
            ("2104000000000000000005", "21210400"),
            ("2203ff", "22000001"),
        ];
        script.add(&lines)?;
        script.check(&rt, 56 * 2_087)
    }

    // A remark and an opening without its newline, which are 32,768 bytes, and the same with one byte more.
    #[test]
    fn sizes(rt: HostRuntime) -> Result<(), Fail> {
        let heap = rt.alloc();
        let mut input = vec![in heap; b'#'; 32_757]?;
        input.extend_from_slice(b"\n0101010320")?;
        writes(&rt, 0, input.as_slice(), b"0100\n")?;
        input.push(b'\n')?;
        writes(&rt, 0, input.as_slice(), b"00188000\n")
    }
}
