//! Events that wait at their nodes.
ghost use Rattle.std.specs.Prelude.{◌≡◌};

use arrayvec::ArrayVec;
use rb_base::{Event, EventKind, NodeName, Shape};
use rb_queue::Lanes;
use std::test::Fail;

// A tick of the node, which asks for no word.
fn tick(node: NodeName) -> Event
    ensures { result.node ≡ node }
{
    Event {
        node,
        quiet: 0,
        kind: EventKind::Tick {
            word: 0,
            wanted: false,
        },
    }
}

// An arrival without bytes at the node, after some quiet ticks.
fn arrival(node: NodeName, quiet: u32, from: u8) -> Event
    ensures { result.node ≡ node }
{
    Event {
        node,
        quiet,
        kind: EventKind::Arrive {
            from,
            bytes: ArrayVec::new(),
        },
    }
}

// A tick and an arrival wait at B0, both at time 5: the arrival is ready first, then the tick, and
// then all is dropped.
#[test]
fn a_tick_waits_for_an_arrival_of_its_time(rt: HostRuntime) -> Result<(), Fail> {
    let shape = Shape::new(1, 2, 1).unwrap();
    let made = Lanes::new(rt.alloc(), &shape, 3);
    assert!(rt; made.is_ok());
    let mut lanes = made?;
    let b0 = NodeName::Biu(0);
    assert_eq!(rt; lanes.spare(b0), 3);
    assert_eq!(rt; lanes.head(b0), None);
    assert_eq!(rt; lanes.ready(b0), 0);

    lanes.push(5, tick(b0));
    assert_eq!(rt; lanes.spare(b0), 2);
    lanes.push(5, arrival(b0, 0, 0));
    assert_eq!(rt; lanes.spare(b0), 1);
    assert_eq!(rt; lanes.head(b0), Some(5));
    assert_eq!(rt; lanes.ready(b0), 1);
    assert!(rt; lanes.event(b0, 0) == arrival(b0, 0, 0));
    assert!(rt; lanes.take(b0, 0) == arrival(b0, 0, 0));
    assert_eq!(rt; lanes.ready(b0), 1);
    assert!(rt; lanes.event(b0, 0) == tick(b0));
    lanes.drop_all(b0);
    assert_eq!(rt; lanes.head(b0), None);
    assert_eq!(rt; lanes.spare(b0), 3);
    Ok(())
}

// Two arrivals of one time are ready by sender, an event with quiet ticks before it comes back as
// it was pushed, and what waits at another node stays when all of B0 is dropped.
#[test]
fn events_by_sender_and_by_node(rt: HostRuntime) -> Result<(), Fail> {
    let shape = Shape::new(1, 2, 1).unwrap();
    let mut lanes = Lanes::new(rt.alloc(), &shape, 3)?;
    let b0 = NodeName::Biu(0);
    let r1 = NodeName::Rmu(1);
    assert!(rt; lanes.spare(b0) >= 1);
    lanes.push(9, arrival(b0, 0, 0));
    assert!(rt; lanes.spare(b0) >= 1);
    lanes.push(8, arrival(b0, 4, 1));
    assert!(rt; lanes.spare(b0) >= 1);
    lanes.push(8, arrival(b0, 0, 0));
    assert!(rt; lanes.spare(r1) >= 1);
    lanes.push(7, tick(r1));
    assert_eq!(rt; lanes.head(b0), Some(8));
    assert_eq!(rt; lanes.ready(b0), 2);
    assert!(rt; lanes.event(b0, 0) == arrival(b0, 0, 0));
    assert!(rt; lanes.take(b0, 1) == arrival(b0, 4, 1));
    assert_eq!(rt; lanes.ready(b0), 1);
    assert_eq!(rt; lanes.spare(b0), 1);
    lanes.drop_all(b0);
    assert_eq!(rt; lanes.head(b0), None);
    assert_eq!(rt; lanes.head(r1), Some(7));
    Ok(())
}
