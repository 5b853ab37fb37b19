//! The smallest bus in lockstep: B0, R0 and a passive listener, whose clocks tick as one, and whose
//! messages come with the next tick.
use crate::nodes::PLAN;
use rb_base::{Biu, Rmu, Shape};
use rb_listen::Listener;
use rb_node::Node;
use rb_plan::Feasible;
use std::test::Fail;

/// The nodes, and who listens beside them.
#[derive(Drop)]
struct Smallest {
    biu: Node<Biu>,
    rmu: Node<Rmu>,
    listener: Listener,
}

// All three before their first tick.
fn two_nodes() -> Option<Smallest> {
    let plan = Feasible::new(&Shape::new(1, 1, 1)?, &PLAN).ok()?;
    Some(Smallest {
        biu: Node::new(&plan, 0),
        rmu: Node::new(&plan, 0),
        listener: Listener::new(&plan),
    })
}

impl Smallest {
    // What the RMU sends comes to the BIU and to the listener, and what the BIU sends to the RMU.
    fn tick(&mut self) {
        let of_biu = self.biu.tick(1);
        let of_rmu = self.rmu.tick(1);
        let _heed = self.listener.tick();
        if let Some(bytes) = of_biu.send {
            self.rmu.arrive(0, bytes.as_slice());
        }
        if let Some(bytes) = of_rmu.send {
            self.biu.arrive(0, bytes.as_slice());
            self.listener.arrive(0, bytes.as_slice());
        }
    }

    // All three have `count` ticks.
    fn tick_often(&mut self, count: u32) {
        for _ in 0..count {
            self.tick();
        }
    }

    // Who owns the only data slot, at each node, and the ticks of their next epochs.
    fn shown(&self) -> ([Option<u8>; 2], [Option<u64>; 2]) {
        let owners = [self.biu.engine().owner(1), self.rmu.engine().owner(1)];
        (owners, [self.biu.new_epoch(), self.rmu.new_epoch()])
    }
}

// The schedule stands with the close of slot 0. The BIU knows its next epoch from the close of
// stage 2 of the sync slot on, and the RMU from that of stage 3 on. With the next frame both are
// forgotten.
#[test]
fn a_frame_of_two_nodes(rt: HostRuntime) -> Result<(), Fail> {
    let Some(mut bus) = two_nodes() else {
        return Err("not feasible".into());
    };
    let rows = [
        (44u32, [None, None], [None, None]),
        (45, [Some(0), Some(0)], [None, None]),
        (212, [Some(0), Some(0)], [None, None]),
        (213, [Some(0), Some(0)], [Some(242), None]),
        (232, [Some(0), Some(0)], [Some(242), None]),
        (233, [Some(0), Some(0)], [Some(242), Some(242)]),
        (242, [Some(0), Some(0)], [Some(242), Some(242)]),
        (243, [None, None], [None, None]),
    ];
    let mut had = 0u32;
    for (ticks, owners, epochs) in rows {
        bus.tick_often(ticks.saturating_sub(had));
        had = ticks;
        assert_eq!(rt; bus.shown(), (owners, epochs), "after {ticks} ticks");
    }
    assert_eq!(rt; bus.biu.engine().owner(0), None);
    Ok(())
}

// The listener seeks in frame 0, learns frame 1, and follows from frame 2 on, which begins with
// tick 484.
#[test]
fn frames_of_a_listener(rt: HostRuntime) -> Result<(), Fail> {
    let Some(mut bus) = two_nodes() else {
        return Err("not feasible".into());
    };
    assert_eq!(rt; bus.listener.frame(), None);
    let mut had = 0u32;
    for (ticks, frame) in [
        (484u32, None),
        (485, Some(2)),
        (726, Some(2)),
        (727, Some(3)),
    ] {
        bus.tick_often(ticks.saturating_sub(had));
        had = ticks;
        assert_eq!(rt; bus.listener.frame(), frame, "after {ticks} ticks");
    }
    Ok(())
}
