//! Cases of a well's text: each code where it just comes, and where it just does not.

#![tactic(auto)]

#[cfg(test)]
mod tests {
    use measure::Amount;
    use sheet_text::{Fault, State, check, make};
    use std::alloc::{AllocError, Global};
    use std::test::Fail;
    use store::TieRecord;

    // Texts, each with the number and place of its fault, if it has one.
    const CASES: [(&[u8], Option<(u8, u32)>); 69] = [
        // the whole text
        (b"", Some((21, 0))),
        (b"Z", Some((21, 0))),
        (b"\n", Some((21, 0))),
        (b"Z\n", Some((22, 0))),
        (b"H 3\nM a\nM b\nZ 12 0", Some((21, 0))),
        (b"H 3\nM a\nM b\nZ 12 0\n", None),
        (b"H 3\nM a\nM b\nT a b 1\n", Some((21, 0))),
        (b"H 3\nM a\nM b\nZ 12 0\n\n", Some((21, 0))),
        (b"H 3\nM a\nM b\nZ 12 0\nM c\n", Some((21, 0))),
        (b"H x\nM a\nM b\nT a b 1\n", Some((21, 0))),
        // the total depth
        (b"H 20000000\nM a\nM b\nZ 19 0\n", None),
        (b"H 20000001\nM a\nM b\nZ 19 0\n", Some((22, 0))),
        (b"H -20000000\nM a\nM b\nZ 20 0\n", None),
        (b"H -20000001\nM a\nM b\nZ 20 0\n", Some((22, 0))),
        (b"H 0\nM a\nM b\nZ 12 0\n", None),
        (b"H -0\nM a\nM b\nZ 13 0\n", Some((22, 0))),
        (b"H 03\nM a\nM b\nZ 13 0\n", Some((22, 0))),
        (b"H +3\nM a\nM b\nZ 13 0\n", Some((22, 0))),
        (b"H  3\nM a\nM b\nZ 13 0\n", Some((22, 0))),
        (b"H 3 \nM a\nM b\nZ 13 0\n", Some((22, 0))),
        (b"H 3\r\nM a\nM b\nZ 13 0\n", Some((22, 0))),
        (b"H\nM a\nM b\nZ 10 0\n", Some((22, 0))),
        (b"h 3\nM a\nM b\nZ 12 0\n", Some((22, 0))),
        // the order of lines
        (b"M a\nM b\nZ 8 0\n", Some((22, 0))),
        (b"T a b 1\nZ 0 1\n", Some((22, 0))),
        (b"Z 0 0\n", Some((22, 0))),
        (b"H 3\nH 3\nM a\nM b\nZ 16 0\n", Some((22, 4))),
        (b"H 3\nM a\nH 3\nM b\nZ 16 0\n", Some((22, 8))),
        (b"H 3\nM a\nM b\nT a b 1\nM c\nZ 12 1\n", Some((22, 20))),
        (b"H 3\nM a\nM b\nZ 12 0\nZ 12 0\n", Some((22, 19))),
        (b"H 3\nM a\nM b\nZ 12 0\nT a b 1\nZ 12 1\n", Some((22, 19))),
        (b"H 3\nM a\n\nM b\nZ 13 0\n", Some((22, 8))),
        // names
        (b"H 3\nM 1234567890123456\nM b\nZ 27 0\n", None),
        (b"H 3\nM 12345678901234567\nM b\nZ 28 0\n", Some((22, 4))),
        (b"H 3\nM !\nM ~\nZ 12 0\n", None),
        (b"H 3\nM \x7f\nM b\nZ 12 0\n", Some((22, 4))),
        (b"H 3\nM a\nM \nZ 11 0\n", Some((22, 8))),
        (b"H 3\nM a\nM b c\nZ 14 0\n", Some((22, 8))),
        (b"H 3\nM a\nM a\nZ 12 0\n", Some((23, 8))),
        (b"H 3\nM a\nM A\nZ 12 0\n", None),
        // the number of markers
        (b"H 3\nZ 4 0\n", Some((24, 4))),
        (b"H 3\nM a\nZ 8 0\n", Some((24, 8))),
        (b"H 3\nM a\nZ 9 9\n", Some((24, 8))),
        (b"H 3\nM a\nT a c 1\nZ 8 1\n", Some((24, 8))),
        (b"H 3\nM a\nT a a 01\nZ 8 1\n", Some((22, 8))),
        // ties
        (b"H 3\nM a\nM b\nT a b -1 <\nT b a 0\nZ 12 2\n", None),
        (b"H 3\nM a\nM b\nT a b -20000000\nZ 12 1\n", None),
        (b"H 3\nM a\nM b\nT a b -20000001\nZ 12 1\n", Some((22, 12))),
        (b"H 3\nM a\nM b\nT a b 20000000\nZ 12 1\n", None),
        (b"H 3\nM a\nM b\nT a b 20000001\nZ 12 1\n", Some((22, 12))),
        (b"H 3\nM a\nM b\nT a b 1 >\nZ 12 1\n", Some((22, 12))),
        (b"H 3\nM a\nM b\nT a b 1 < \nZ 12 1\n", Some((22, 12))),
        (b"H 3\nM a\nM b\nT a b\nZ 12 1\n", Some((22, 12))),
        (b"H 3\nM a\nM b\nT a c 1\nZ 12 1\n", Some((23, 12))),
        (b"H 3\nM a\nM b\nT c b 1\nZ 12 1\n", Some((23, 12))),
        (b"H 3\nM a\nM b\nT c c 1\nZ 12 1\n", Some((23, 12))),
        (b"H 3\nM a\nM b\nT a a 1\nZ 12 1\n", Some((5, 12))),
        (b"H 3\nM a\nM b\nT a b 1\nT a b 2\nZ 12 2\n", Some((23, 20))),
        (
            b"H 3\nM a\nM b\nT a b 1\nT b a 2\nT b b 2\nT x y 0\nZ 1 1\n",
            Some((5, 28)),
        ),
        // the trailer
        (b"H 3\nM a\nM b\nT a b 1\nZ 12 1\n", None),
        (b"H 3\nM a\nM b\nT a b 1\nZ 20 1\n", Some((25, 20))),
        (b"H 3\nM a\nM b\nT a b 1\nZ 12 0\n", Some((25, 20))),
        (b"H 3\nM a\nM b\nZ 11 0\n", Some((25, 12))),
        (b"H 3\nM a\nM b\nZ 012 0\n", Some((22, 12))),
        (b"H 3\nM a\nM b\nZ 12\n", Some((22, 12))),
        (b"H 3\nM a\nM b\nZ 12 -0\n", Some((22, 12))),
        (b"H 3\nM a\nM b\nZ 4294967308 0\n", Some((25, 12))),
        (b"H 3\nM a\nM b\nZ 18446744073709551628 0\n", Some((25, 12))),
        (
            b"H 3\nM a\nM b\nZ 12 99999999999999999999999999\n",
            Some((25, 12)),
        ),
    ];

    fn told(fault: Fault) -> (u8, u32) {
        (fault.code.number(), fault.place)
    }

    fn checked(text: &[u8]) -> Option<(u8, u32)> {
        check(text).err().map(told)
    }

    fn made_in<'a>(
        text: &'a [u8],
        state: &mut State<'a>,
        records: &mut [TieRecord],
    ) -> Option<(u8, u32)> {
        make(text, state, records).err().map(told)
    }

    fn made(text: &[u8], records: &mut [TieRecord]) -> Option<(u8, u32)> {
        let mut state = State::new();
        made_in(text, &mut state, records)
    }

    #[test]
    fn cases(rt: HostRuntime) {
        for (text, fault) in CASES {
            assert_eq!(rt; checked(text), fault);
        }
    }

    const NO_TIE: TieRecord = TieRecord {
        start: 9,
        end: 9,
        amount: Amount { mm: 9, marks: 9 },
    };

    // Adds the lines of ties from each of 64 markers to each other, the first with `mm` and all others with 1.
    fn add_ties(text: &mut Vec<u8>, heap: Global, ties: u32, mm: u32) -> Result<(), AllocError> {
        for i in 0..ties {
            let start = i / 63;
            let other = i % 63;
            let end = if other < start { other } else { other + 1 };
            let mm = if i == 0 { mm } else { 1 };
            text.extend_from_slice(format!(in heap;
                "T abcdefghijklmn{} abcdefghijklmn{} {mm}\n",
                start % 64 + 10,
                end % 64 + 10
            )?
            .as_bytes())?;
        }
        Ok(())
    }

    // A text of names of 16 bytes: 1,226 bytes before the ties of 64 markers, and 38 for each tie of 1 mm.
    fn large(heap: Global, markers: u32, ties: u32, mm: u32) -> Result<Vec<u8>, AllocError> {
        let mut text = Vec::new(heap);
        text.extend_from_slice(b"H 3000000\n")?;
        for i in 0..markers {
            text.extend_from_slice(format!(in heap;
                "M abcdefghijklmn{}\n",
                i % 80 + 10
            )?.as_bytes())?;
        }
        add_ties(&mut text, heap, ties, mm)?;
        text.extend_from_slice(format!(in heap; "Z 1226 {ties}\n")?.as_bytes())?;
        Ok(text)
    }

    #[test]
    fn sizes(rt: HostRuntime) -> Result<(), Fail> {
        let heap = rt.alloc();
        let longest = large(heap, 64, 1692, 100)?;
        assert_eq!(rt; longest.len(), 65_536);
        assert_eq!(rt; checked(longest.as_slice()), None);
        let longer = large(heap, 64, 1692, 1000)?;
        assert_eq!(rt; longer.len(), 65_537);
        assert_eq!(rt; checked(longer.as_slice()), Some((21, 0)));
        assert_eq!(rt;
            checked(large(heap, 65, 0, 1)?.as_slice()),
            Some((24, 1226))
        );
        Ok(())
    }

    #[test]
    fn lists(rt: HostRuntime) -> Result<(), Fail> {
        let heap = rt.alloc();
        let mut records = [NO_TIE; 256];
        let over = large(heap, 64, 257, 1)?;
        assert_eq!(rt; made(over.as_slice(), &mut records), Some((10, 10_954)));
        assert_eq!(rt; records[0], NO_TIE);
        assert_eq!(rt; records[255], NO_TIE);
        let full = large(heap, 64, 256, 1)?;
        assert_eq!(rt; made(full.as_slice(), &mut records), None);
        assert_eq!(rt;
            records[255],
            TieRecord {
                start: 4,
                end: 3,
                amount: Amount { mm: 1, marks: 0 },
            }
        );
        Ok(())
    }

    #[test]
    fn records(rt: HostRuntime) {
        let small = b"H 3\nM a\nM b\nT a b -7 <\nZ 12 1\n";
        let mut most = [NO_TIE; 4096];
        assert_eq!(rt; made(small, &mut most), None);
        assert_eq!(rt;
            most[0],
            TieRecord {
                start: 0,
                end: 1,
                amount: Amount { mm: -7, marks: -1 },
            }
        );
        assert_eq!(rt; most[1], NO_TIE);
        let mut more = [NO_TIE; 4097];
        assert_eq!(rt; made(small, &mut more), Some((14, 0)));
        assert_eq!(rt; made(b"Z", &mut more), Some((14, 0)));
        assert_eq!(rt; more[0], NO_TIE);
        assert_eq!(rt; made(small, &mut []), Some((10, 12)));
    }

    #[test]
    fn well(rt: HostRuntime) -> Result<(), Fail> {
        let text =
            b"H 3000000\nM datum\nM top\nM base\nT datum top 2000000\nT top base 12000 <\nZ 31 2\n";
        let header = check(text)?;
        assert_eq!(rt; header.markers, 3);
        assert_eq!(rt; header.total_depth, 3_000_000);
        let mut state = State::new();
        let mut list = [NO_TIE; 2];
        assert_eq!(rt; made_in(text, &mut state, &mut list), None);
        assert_eq!(rt; state.total_depth, 3_000_000);
        assert_eq!(rt; state.names.len(), 3);
        assert_eq!(rt; state.names.name(2), b"base".as_slice());
        assert_eq!(rt; state.names.name(3), b"".as_slice());
        Ok(())
    }
}
