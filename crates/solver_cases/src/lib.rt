//! Openings and readings at the edges of the rules.

#![tactic(auto)]

#[cfg(test)]
mod tests {
    use law::Refusal;
    use measure::{Amount, PlainDepth};
    use solver::Solver;
    use store::{Refusal as StoreRefusal, TieList, TieRecord, TieStore};

    // What an opening over four markers without ties answers.
    fn opened(total: i64) -> Result<u16, Refusal> {
        let mut records = [TieRecord::default(); 8];
        let list = TieList::new(4, &mut records);
        let mut solver = Solver::new(list, PlainDepth, Amount::millimetres(total), 0);
        solver.open(&mut [0; 4])
    }

    #[test]
    fn total_depths(rt: HostRuntime) {
        let cases = [
            (20_000_000, Ok(4)),
            (20_000_001, Err(Refusal::BadAmount)),
            (1, Ok(4)),
            (0, Err(Refusal::BadAmount)),
            (-1, Err(Refusal::BadAmount)),
        ];
        for (total, answer) in cases {
            assert_eq!(rt; opened(total), answer, "at {total}");
        }
    }

    #[test]
    fn sizes(rt: HostRuntime) {
        let cases = [
            (64, 4096, Ok(())),
            (65, 4096, Err(StoreRefusal::BadSize)),
            (2, 0, Ok(())),
            (1, 0, Err(StoreRefusal::BadSize)),
            (64, 4097, Err(StoreRefusal::BadSize)),
        ];
        for (n, records, answer) in cases {
            assert_eq!(rt;
                TieList::check(n, records),
                answer,
                "{n} markers, {records} records"
            );
        }
    }

    #[test]
    fn readings(rt: HostRuntime) {
        let mut records = [TieRecord::default(); 8];
        let mut buffer = [9; 5];
        let mut short = [9; 3];
        let mut list = TieList::new(4, &mut records);
        assert_eq!(rt; list.put(0, 1, Amount::millimetres(2_000_000)), Ok(()));
        assert_eq!(rt; list.put(1, 2, Amount::millimetres(12_000)), Ok(()));
        let mut solver = Solver::new(list, PlainDepth, Amount::millimetres(3_000_000), 0);
        assert_eq!(rt; solver.depth(0), Err(Refusal::NotOpen));
        assert_eq!(rt; solver.path(2, &mut buffer), Err(Refusal::NotOpen));
        assert_eq!(rt; solver.open(&mut buffer), Ok(4));
        assert_eq!(rt; solver.open(&mut buffer), Err(Refusal::NotNew));
        assert_eq!(rt; solver.path(4, &mut buffer), Err(Refusal::UnknownMarker));
        assert_eq!(rt; solver.path(2, &mut short), Err(Refusal::ShortBuffer));
        assert_eq!(rt; solver.path(2, &mut buffer), Ok(3));
        assert_eq!(rt; &buffer, &[0, 1, 2, 9, 9]);
        assert_eq!(rt; solver.change_count(), 0);
    }
}
