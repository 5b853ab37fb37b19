//! As many rules for delays as have a number, and one more.
use rb_base::{NodeName, OutOfMemory, Place};
use rb_link::{Delays, Pattern, Rule};
use std::alloc::Global;
use std::test::Fail;

const ANY: Rule = Rule {
    from: Pattern::AllBiu,
    to: Pattern::AllRmu,
    frames: (0, 4095),
    slots: (0, 112),
    stages: (1, 3),
    delay: 7000,
};

const PLACE: Place = Place {
    frame: 1,
    slot: 2,
    stage: 3,
};

// The delay that as many rules as have a number give, with this one behind them.
fn delay_with(alloc: Global, past: &[Rule]) -> Result<u32, OutOfMemory> {
    let mut rules = vec![in alloc; ANY; 65536]?;
    rules.extend_from_slice(past)?;
    let delays = Delays::new(alloc, 10000, &rules)?;
    Ok(delays.delay(NodeName::Biu(15), NodeName::Rmu(15), PLACE))
}

#[test]
fn a_rule_past_the_numbers(rt: HostRuntime) -> Result<(), Fail> {
    let numbered = delay_with(rt.alloc(), &[])?;
    let past = delay_with(rt.alloc(), &[Rule { delay: 5000, ..ANY }])?;
    assert_eq!(rt; (numbered, past), (7000, 5000));
    Ok(())
}
