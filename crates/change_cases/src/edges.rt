//! Which refusal comes where several could.

use law::{Counts, Refusal};
use measure::{Amount, PlainDepth};
use solver::Solver;
use store::{TieList, TieRecord};

#[test]
fn ties_refused(rt: HostRuntime) {
    let mut records = [TieRecord::default(); 1];
    let mut short = [9u16; 3];
    let mut cycle = [9u16; 5];
    let large = Amount::millimetres(20_000_001);
    let list = TieList::new(4, &mut records);
    let mut solver = Solver::new(list, PlainDepth, Amount::millimetres(8000), 0);
    assert_eq!(rt; solver.tie(4, 4, large, &mut short), Err(Refusal::NotOpen));
    assert_eq!(rt; solver.open(&mut cycle), Ok(4));
    assert_eq!(rt;
        solver.tie(4, 4, large, &mut short),
        Err(Refusal::UnknownMarker)
    );
    assert_eq!(rt;
        solver.tie(1, 1, large, &mut short),
        Err(Refusal::SameMarker)
    );
    assert_eq!(rt;
        solver.tie(1, 2, large, &mut short),
        Err(Refusal::BadAmount)
    );
    assert_eq!(rt;
        solver.tie(1, 2, Amount::millimetres(1), &mut short),
        Err(Refusal::ShortBuffer)
    );
    assert_eq!(rt;
        solver.tie(1, 2, Amount::millimetres(20_000_000), &mut cycle),
        Ok(Counts::default())
    );
    assert_eq!(rt;
        solver.tie(2, 3, Amount::millimetres(-8001), &mut cycle),
        Err(Refusal::StoreFull)
    );
    assert_eq!(rt; &cycle, &[9, 9, 9, 9, 9]);
    assert_eq!(rt;
        solver.tie(1, 2, Amount::millimetres(-8001), &mut cycle),
        Err(Refusal::Contradiction { length: 3 })
    );
    assert_eq!(rt; &cycle, &[2, 0, 1, 9, 9]);
    assert_eq!(rt; solver.change_count(), 1);
}

#[test]
fn untyings_refused(rt: HostRuntime) {
    let mut records = [TieRecord::default(); 8];
    let mut cycle = [9u16; 4];
    let list = TieList::new(4, &mut records);
    let mut solver = Solver::new(list, PlainDepth, Amount::millimetres(8000), 0);
    assert_eq!(rt; solver.untie(4, 4), Err(Refusal::NotOpen));
    assert_eq!(rt; solver.open(&mut cycle), Ok(4));
    assert_eq!(rt; solver.untie(4, 4), Err(Refusal::UnknownMarker));
    assert_eq!(rt; solver.untie(1, 1), Err(Refusal::SameMarker));
    assert_eq!(rt; solver.untie(0, 1), Err(Refusal::PairEmpty));
    assert_eq!(rt;
        solver.tie(0, 1, Amount::millimetres(5000), &mut cycle),
        Ok(Counts {
            moved: 1,
            reparented: 0
        })
    );
    assert_eq!(rt;
        solver.untie(0, 1),
        Ok(Counts {
            moved: 1,
            reparented: 0
        })
    );
    assert_eq!(rt; solver.untie(0, 1), Err(Refusal::PairEmpty));
    assert_eq!(rt; solver.change_count(), 2);
}
