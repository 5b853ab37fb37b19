//! Whom a node accuses, and of whom it takes nothing more.
use rb_base::{Biu, NodeId};
use rb_eligible::Standing;
use std::test::Fail;

// Whether the nodes 0 to 3 are eligible, and the vector.
fn shown(standing: &Standing<Biu>) -> ([bool; 4], u32) {
    let eligible = [
        standing.eligible(NodeId::of(0)),
        standing.eligible(NodeId::of(1)),
        standing.eligible(NodeId::of(2)),
        standing.eligible(NodeId::of(3)),
    ];
    (eligible, standing.vector())
}

// Of three nodes, node 1 is accused directly and node 2 by mismatch. A mismatch leaves a node
// eligible, and the vector names both. After two frames without new evidence the direct accusation
// lapses, and the mismatch stays.
#[test]
fn accusations_of_both_kinds(rt: HostRuntime) -> Result<(), Fail> {
    let mut standing = Standing::new(3);
    assert_eq!(rt; shown(&standing), ([true, true, true, false], 0));
    standing.accuse_direct(NodeId::of(1));
    assert_eq!(rt; shown(&standing), ([true, false, true, false], 2));
    standing.accuse_mismatch(NodeId::of(2));
    assert_eq!(rt; shown(&standing), ([true, false, true, false], 6));
    for vector in [6, 6, 4, 4] {
        standing.lapse(2);
        assert_eq!(rt; standing.vector(), vector);
    }
    assert_eq!(rt; shown(&standing), ([true, true, true, false], 4));
    Ok(())
}
