//! Whom nodes expect in each stage of a slot.
use rb_base::Heard::{Fault, Word};
use rb_base::{Biu, Kind, NodeSet, Rmu, Shape};
use rb_schedule::{Owners, owners_of};
use rb_slot::expected;
use std::test::Fail;

// The slot, and by stage the masks of those whom BIUs and whom RMUs expect. B0 and B1 own slots 4
// and 5, and nobody owns slot 6. B3 and R2 are convicted, so that slot 3 is idle.
const ROWS: [(u16, [u16; 3], [u16; 3]); 7] = [
    (1, [0, 3, 0], [2, 0, 7]),
    (3, [0, 0, 0], [0, 0, 0]),
    (5, [0, 3, 0], [2, 0, 0]),
    (6, [0, 0, 0], [0, 0, 0]),
    (14, [0, 3, 0], [4, 0, 7]),
    (17, [2, 0, 3], [0, 7, 0]),
    (19, [0, 3, 0], [7, 0, 7]),
];

// The mask of those whom nodes of a kind expect in a stage.
fn mask<K: Kind>(shape: &Shape, owners: &Owners, slot: u16, stage: u8) -> u16 {
    expected::<K>(
        shape,
        slot,
        stage,
        owners,
        NodeSet::first(3),
        NodeSet::first(2),
    )
    .bits()
}

// The masks in the three stages.
fn masks<K: Kind>(shape: &Shape, owners: &Owners, slot: u16) -> [u16; 3] {
    [
        mask::<K>(shape, owners, slot, 1),
        mask::<K>(shape, owners, slot, 2),
        mask::<K>(shape, owners, slot, 3),
    ]
}

#[test]
fn expected_nodes(rt: HostRuntime) -> Result<(), Fail> {
    let Some(shape) = Shape::new(4, 3, 8) else {
        return Err("no shape".into());
    };
    let mut requests = [Fault; 16];
    requests[0] = Word(1);
    requests[1] = Word(1);
    let owners = owners_of(&requests, NodeSet::first(3), &shape);
    for (slot, by_bius, by_rmus) in ROWS {
        let found = (
            masks::<Biu>(&shape, &owners, slot),
            masks::<Rmu>(&shape, &owners, slot),
        );
        assert_eq!(rt; found, (by_bius, by_rmus), "slot {slot}");
    }
    Ok(())
}
