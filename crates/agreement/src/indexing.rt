use indexes::{Chained, Index, Plain};
use std::process::Abort;
use std::test::Fail;

#[derive(Clone, Copy)]
enum Call {
    Reset,
    Enter(u16, &'static [u16], u16),
    Query(u16, &'static [u16]),
    Delete(u16, &'static [u16]),
}

// What a call answers, as a number, so that one table of expected numbers serves every index: nothing by 0, a refusal by 2,000 and its
// number. A table of closures would be generic over the index, row by row, and no plainer.
fn answer<I: Index>(index: &mut I, call: Call) -> u16 {
    match call {
        Call::Reset => {
            index.reset();
            0
        }
        Call::Enter(op, row, picture) => match index.enter(op, row, picture) {
            Ok(()) => 0,
            Err(fault) => 2000 + u16::from(fault.number()),
        },
        Call::Query(op, row) => index.query(op, row).unwrap_or(0),
        Call::Delete(op, row) => {
            index.delete(op, row);
            0
        }
    }
}

// Each call with its answer.
const CALLS: [(Call, u16); 19] = [
    (Call::Reset, 0),
    (Call::Query(1, &[]), 0),
    (Call::Enter(1, &[], 7), 0),
    (Call::Enter(1, &[1], 8), 0),
    (Call::Enter(1, &[1, 2, 3, 4], 9), 0),
    (Call::Enter(1, &[1, 2, 3, 4, 5], 9), 2005),
    (Call::Query(1, &[]), 7),
    (Call::Query(1, &[1]), 8),
    (Call::Query(2, &[1]), 0),
    (Call::Query(1, &[1, 2, 3, 4]), 9),
    (Call::Query(1, &[1, 2, 4, 3]), 0),
    (Call::Enter(1, &[1], 6), 0),
    (Call::Query(1, &[1]), 6),
    (Call::Delete(1, &[1]), 0),
    (Call::Query(1, &[1]), 0),
    (Call::Query(1, &[]), 7),
    (Call::Delete(9, &[]), 0),
    (Call::Reset, 0),
    (Call::Query(1, &[]), 0),
];

fn run<I: Index>(rt: &impl Abort, index: &mut I) {
    for (call, expected) in CALLS.iter().copied() {
        assert_eq!(rt; answer(index, call), expected);
    }
    fill(rt, index);
}

// 1,024 signatures of one operation, and no more; then one goes and another comes.
fn fill<I: Index>(rt: &impl Abort, index: &mut I) {
    for i in 0..1024u16 {
        assert!(rt; index.enter(3, &[i], i).is_ok());
    }
    assert!(rt; index.enter(3, &[1024], 1).is_err());
    assert!(rt; index.enter(3, &[1023], 5).is_ok());
    assert_eq!(rt; index.query(3, &[1023]), Some(5));
    assert_eq!(rt; index.query(3, &[500]), Some(500));
    index.delete(3, &[500]);
    assert!(rt; index.enter(3, &[1024], 1).is_ok());
    assert_eq!(rt; index.query(3, &[1024]), Some(1));
    assert_eq!(rt; index.query(3, &[500]), None);
}

#[test]
fn plain_list(rt: HostRuntime) -> Result<(), Fail> {
    run(&rt, &mut Plain::new(rt.alloc())?);
    Ok(())
}

#[test]
fn chained_records(rt: HostRuntime) -> Result<(), Fail> {
    run(&rt, &mut Chained::new(rt.alloc())?);
    Ok(())
}
