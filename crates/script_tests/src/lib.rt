//! Lines good and bad, and answers, as tests.
#![tactic(auto)]

#[cfg(test)]
mod tests {
    use script::{Call, Command, Line, read_line};
    use std::test::Fail;
    use text::{meaning, write_bytes, write_numbers, write_password, write_refusal, write_text};

    #[test]
    fn silent_lines(rt: HostRuntime) -> Result<(), Fail> {
        for line in ["", "  \t ", "# post a 1 1", " \t#"] {
            assert_eq!(rt; read_line(rt.alloc(), line.as_bytes())?, Line::Nothing);
        }
        Ok(())
    }

    #[test]
    fn unreadable_lines(rt: HostRuntime) -> Result<(), Fail> {
        for line in [
            "a ask 300 1 0 000000000 64",
            "a told 300 1 257",
            "a wire 7355 2",
            "a wire 0x73",
            "a enrol 0x",
            "a enrol 0X12",
            "a Hear",
            "post a1 1 1",
            "post abcdefghijklmnopq 1 1",
            "post a -1 1",
            "same a",
            "pack request 5 0xFFFF 1 00000000 64 1",
            "unpack",
            "a",
            "a foo",
            "a giveup 0",
            "post x 1 1 1",
            "post x 1001 1",
            "a enrol 99999999999999999999999999",
            "look fetch",
            "a save 70001",
        ] {
            assert_eq!(rt; read_line(rt.alloc(), line.as_bytes())?, Line::Unreadable);
        }
        Ok(())
    }

    #[test]
    fn good_lines(rt: HostRuntime) -> Result<(), Fail> {
        for line in [
            "post a 3 4",
            "\tpost abcdefghijklmnop 1000 5000",
            "  post   b\t2 0x2  ",
            "unpack 43",
            "a save 70000",
            "same post look",
            "a switch 65535 8 1 0a0B0c0D 0256",
            "a silent 255 1000",
            "a load",
        ] {
            assert!(rt; matches!(read_line(rt.alloc(), line.as_bytes())?, Line::Command(_)));
        }
        Ok(())
    }

    #[test]
    fn values(rt: HostRuntime) -> Result<(), Fail> {
        match read_line(rt.alloc(), b"a enrol 0x12C")? {
            Line::Command(
                Command::Call {
                    call: Call::Enrol { meter },
                    ..
                },
            ) => assert_eq!(rt; meter, 300),
            _ => return Err(Fail::new("no enrol")),
        }
        match read_line(rt.alloc(), b"look")? {
            Line::Command(Command::Look { bytes }) => assert!(rt; bytes.is_empty()),
            _ => return Err(Fail::new("no look")),
        }
        match read_line(rt.alloc(), b"pack answer 1 2 3 01020304 64 aAbB 0c")? {
            Line::Command(Command::Pack { four, data, .. }) => {
                assert!(rt; four == [1, 2, 3, 4]);
                assert!(rt; data.as_slice() == [0xAA, 0xBB, 0x0C].as_slice());
                Ok(())
            }
            _ => Err(Fail::new("no pack")),
        }
    }

    #[test]
    fn answers(rt: HostRuntime) -> Result<(), Fail> {
        let mut out = String::new(rt.alloc());
        write_refusal(&mut out, 12)?;
        write_bytes(&mut out, &[0x73, 0x0A])?;
        write_numbers(&mut out, &[0, 4294967295])?;
        write_password(&mut out, [1, 2, 254, 255])?;
        write_text(&mut out, &[])?;
        assert!(rt;
            out.as_str()
                == "refused 12 (all meter places are taken)bytes 73 0A 0 42949672950102FEFF-"
        );
        assert!(rt; meaning(8).is_empty());
        Ok(())
    }
}
