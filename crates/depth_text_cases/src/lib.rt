//! Lines of the program's answer, byte for byte.

#![tactic(auto)]

#[cfg(test)]
mod tests {
    use depth_text::{add_contradiction, add_refused, add_row};
    use measure::Amount;
    use std::test::Fail;

    const NAMES: [&[u8]; 3] = [b"datum", b"top", b"base"];

    #[test]
    fn one_row(rt: HostRuntime) -> Result<(), Fail> {
        let heap = rt.alloc();
        let mut out = Vec::new(heap);
        add_row(
            &mut out,
            b"!",
            Amount {
                mm: -5_120_000_000,
                marks: 256,
            },
            b"~",
        )?;
        assert_eq!(rt; out.as_slice(), b"! -5120000000 256 ~\n".as_slice());
        Ok(())
    }

    #[test]
    fn lines_go_behind_what_is_there(rt: HostRuntime) -> Result<(), Fail> {
        let heap = rt.alloc();
        let mut out = Vec::new(heap);
        add_contradiction(&mut out, &NAMES, &[2, 1])?;
        add_contradiction(&mut out, &NAMES, &[])?;
        add_refused(&mut out, 5, 0)?;
        add_refused(&mut out, 255, 65_536)?;
        assert_eq!(rt;
            out.as_slice(),
            b"contradiction base top\ncontradiction\nrefused 5 0\nrefused 255 65536\n".as_slice()
        );
        Ok(())
    }
}
