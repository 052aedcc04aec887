use congruence::Congruence;
use indexes::{Chained, Plain};
use keepers::{Links, Relabel};
use std::test::Fail;

// Put together from any parts, a congruence has no picture and no join.
#[test]
fn nothing_yet(rt: HostRuntime) -> Result<(), Fail> {
    let heap = rt.alloc();
    let linked = Congruence::new(heap, Links::new(heap)?, Chained::new(heap)?)?;
    assert!(rt; linked.pictures().is_empty());
    assert!(rt; linked.journal().is_empty());
    let relabelled = Congruence::new(heap, Relabel::new(heap)?, Plain::new(heap)?)?;
    assert!(rt; relabelled.pictures().is_empty());
    assert!(rt; relabelled.journal().is_empty());
    Ok(())
}
