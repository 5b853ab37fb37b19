//! Nodes by themselves, to which nothing comes or anything.
use rb_base::{Biu, Kind, Rmu, Shape};
use rb_node::Node;
use rb_plan::Feasible;
use rb_rules::{Plan, Version};
use std::test::Fail;

/// The plan of a document that says nothing of it.
pub(crate) const PLAN: Plan = Plan {
    u: 10000,
    r: 1,
    dmin: 5000,
    dmax: 15000,
    l: 15,
    h: 6,
    v: 18,
    z: 20,
    c: 1,
    p: 60200,
    version: Version::One,
    probation: 0,
};

/// Four BIUs, three RMUs and eight data slots.
pub(crate) fn bus() -> Option<Feasible> {
    Feasible::new(&Shape::new(4, 3, 8)?, &PLAN).ok()
}

// Gives a node these bytes from this source, and then a tick.
fn come_before_a_tick<K: Kind>(node: &mut Node<K>, from: u8, bytes: &[u8]) {
    node.arrive(from, bytes);
    let _act = node.tick(0);
}

// The ticks that a node has had, if one comes after each arrival: from every number that a source
// may have, with each number of bytes up to 40.
fn ticks_between_arrivals<K: Kind>(node: &mut Node<K>) -> u64 {
    let bytes = [7; 40];
    for from in 0..=255u8 {
        for length in 0..=40usize {
            come_before_a_tick(node, from, &bytes[..length]);
        }
    }
    node.had()
}

// Any bytes of any source may come at any time.
#[test]
fn any_bytes(rt: HostRuntime) -> Result<(), Fail> {
    let Some(bus) = bus() else {
        return Err("not feasible".into());
    };
    let of_biu = ticks_between_arrivals::<Biu>(&mut Node::new(&bus, 0));
    let of_rmu = ticks_between_arrivals::<Rmu>(&mut Node::new(&bus, 0));
    assert_eq!(rt; (of_biu, of_rmu), (10496, 10496));
    Ok(())
}

// A node has `count` ticks, and asks for two slots if it asks.
fn tick_often(node: &mut Node<Biu>, count: u32) {
    for _ in 0..count {
        let _act = node.tick(2);
    }
}

// BIU 0 begins frame 0 with tick 0, sends its request at offset 6, and closes its first windows
// with the ticks 14 and 29.
#[test]
fn ticks_that_are_not_quiet(rt: HostRuntime) -> Result<(), Fail> {
    let Some(bus) = bus() else {
        return Err("not feasible".into());
    };
    let mut node: Node<Biu> = Node::new(&bus, 0);
    for (busy, ticks) in [(0, 1), (6, 6), (14, 8), (29, 15)] {
        assert_eq!(rt; node.next_tick(), Some(busy));
        tick_often(&mut node, ticks);
    }
    assert_eq!(rt; node.had(), 30);
    Ok(())
}
