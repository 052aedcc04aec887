use keepers::{Keeper, KeeperFault, Links, Relabel, classes, is_same, join_counted, populate};
use small::Small;
use std::process::Abort;
use std::test::Fail;

#[derive(Clone, Copy)]
enum Call {
    Reset,
    Grow,
    Join(u16, u16),
    Same(u16, u16),
    Classes,
}

// What a call answers, as a number, so that one table of expected numbers serves every keeper: a refusal by 100 and its number. A table
// of closures would be generic over the keeper, row by row, and no plainer.
fn answer<K: Keeper>(k: &mut K, call: Call) -> u16 {
    let answered = match call {
        Call::Reset => {
            k.reset();
            Ok(0)
        }
        Call::Grow => k.grow(),
        Call::Join(p, q) => join_counted(k, p, q).map(u16::from),
        Call::Same(p, q) => is_same(k, p, q).map(u16::from),
        Call::Classes => Ok(classes(k)),
    };
    answered.unwrap_or_else(|fault| 100 + u16::from(fault.number()))
}

// Each call with its answer.
const CALLS: [(Call, u16); 25] = [
    (Call::Reset, 0),
    (Call::Classes, 0),
    (Call::Join(1, 1), 102),
    (Call::Grow, 1),
    (Call::Grow, 2),
    (Call::Grow, 3),
    (Call::Grow, 4),
    (Call::Classes, 4),
    (Call::Join(4, 2), 1),
    (Call::Join(2, 4), 0),
    (Call::Same(4, 2), 1),
    (Call::Same(1, 2), 0),
    (Call::Same(0, 2), 102),
    (Call::Same(5, 2), 102),
    (Call::Join(0, 1), 102),
    (Call::Join(1, 5), 102),
    (Call::Join(3, 1), 1),
    (Call::Join(1, 2), 1),
    (Call::Same(3, 4), 1),
    (Call::Classes, 1),
    (Call::Grow, 5),
    (Call::Same(5, 1), 0),
    (Call::Classes, 2),
    (Call::Reset, 0),
    (Call::Same(1, 1), 102),
];

fn run<K: Keeper>(rt: &impl Abort, k: &mut K) {
    for (call, expected) in CALLS.iter().copied() {
        assert_eq!(rt; answer(k, call), expected);
    }
    fill(rt, k);
    refill(rt, k);
}

// Grows to the capacity, and no further.
fn fill<K: Keeper>(rt: &impl Abort, k: &mut K) {
    for _ in 0..K::capacity() {
        assert!(rt; k.grow().is_ok());
    }
    assert_eq!(rt; k.grow(), Err(KeeperFault::Full));
    assert_eq!(rt; join_counted(k, 1, K::capacity()), Ok(1));
}

// Pictures that are each alone again, and no more than the capacity.
fn refill<K: Keeper>(rt: &impl Abort, k: &mut K) {
    assert_eq!(rt; populate(k, 3), Ok(()));
    assert_eq!(rt; classes(k), 3);
    assert_eq!(rt; is_same(k, 1, 3), Ok(false));
    assert_eq!(rt; populate(k, 5000), Err(KeeperFault::Full));
    assert_eq!(rt; classes(k), K::capacity());
}

#[test]
fn relabelling(rt: HostRuntime) -> Result<(), Fail> {
    run(&rt, &mut Relabel::new(rt.alloc())?);
    Ok(())
}

#[test]
fn parent_links(rt: HostRuntime) -> Result<(), Fail> {
    run(&rt, &mut Links::new(rt.alloc())?);
    Ok(())
}

#[test]
fn sixteen_in_an_array(rt: HostRuntime) {
    run(&rt, &mut Small::new());
}
