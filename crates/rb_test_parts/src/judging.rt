//! Verdicts on the fault premise and classes of nodes on small stages, on a bus of four BIUs and
//! three RMUs.
use rb_base::{Biu, Heard, NodeName, NodeSet, See, Shape};
use rb_judge::{Cause, Classes, Judge};
use std::test::Fail;

// The good BIUs and RMUs of a stage of which nothing was seen, and the verdict on it.
const SILENT: [(u16, u16, Option<Cause>); 5] = [
    (15, 7, None),
    (1, 1, None),
    (8, 7, Some(Cause::FewGoodBiu)),
    (15, 4, Some(Cause::FewGoodRmu)),
    (0, 0, Some(Cause::FewGoodBiu)),
];

// All nodes are trusted but the last of each kind. Before the first stage of a frame no node is
// known to be good.
#[test]
fn verdicts_on_silence(rt: HostRuntime) -> Result<(), Fail> {
    let Some(shape) = Shape::new(4, 3, 8) else {
        return Err("no shape".into());
    };
    let mut judge = Judge::new(&shape);
    assert_eq!(rt; judge.verdict(), Some(Cause::FewGoodBiu));
    for (biu, rmu, verdict) in SILENT {
        let good = (NodeSet::from_bits(biu), NodeSet::from_bits(rmu));
        judge.stage(good.0, good.1, NodeSet::first(3), NodeSet::first(2), 10000);
        assert_eq!(rt; judge.verdict(), verdict, "{biu} {rmu}");
        assert_eq!(rt; judge.biu().good.bits(), biu & 7);
        assert_eq!(rt; judge.rmu().benign.bits(), 3 & !rmu);
    }
    judge.frame();
    assert_eq!(rt; judge.verdict(), Some(Cause::FewGoodBiu));
    Ok(())
}

// The classes of the BIUs, of which the last is not good, where the three RMUs saw this of it.
// Times of one message may be 10 units apart.
fn classes_seen(first: See, second: See, third: See) -> Classes<Biu> {
    let shape = Shape::new(4, 3, 8).unwrap();
    let mut judge = Judge::new(&shape);
    judge.stage(
        NodeSet::from_bits(7),
        NodeSet::from_bits(7),
        NodeSet::from_bits(15),
        NodeSet::from_bits(7),
        10,
    );
    judge.note(NodeName::Rmu(0), 3, first);
    judge.note(NodeName::Rmu(1), 3, second);
    judge.note(NodeName::Rmu(2), 3, third);
    judge.biu()
}

const NOTHING: See = See::Nothing;

const NONE: See = See::Value(Heard::Fault);

const ZERO: See = See::Value(Heard::Word(0));

const ONE: See = See::Value(Heard::Word(1));

// What the RMUs saw of BIU 3, and whether it is benign, symmetric or asymmetric.
const SIGHTS: [([See; 3], [u16; 3]); 11] = [
    ([NOTHING, NOTHING, NOTHING], [8, 0, 0]),
    ([ONE, ONE, ONE], [0, 8, 0]),
    ([NONE, NONE, NONE], [0, 8, 0]),
    ([ONE, ONE, ZERO], [0, 0, 8]),
    ([ZERO, NONE, ZERO], [0, 0, 8]),
    ([ONE, NOTHING, ONE], [0, 0, 8]),
    ([See::Time(100), See::Time(110), See::Time(105)], [0, 8, 0]),
    ([See::Time(110), See::Time(100), See::Time(100)], [0, 8, 0]),
    ([See::Time(100), See::Time(105), See::Time(111)], [0, 0, 8]),
    ([See::Time(111), See::Time(105), See::Time(100)], [0, 0, 8]),
    ([NOTHING, See::Time(100), See::Time(100)], [0, 0, 8]),
];

#[test]
fn sights_of_one_source(rt: HostRuntime) {
    for ([first, second, third], sets) in SIGHTS {
        let classes = classes_seen(first, second, third);
        let found = [
            classes.benign.bits(),
            classes.symmetric.bits(),
            classes.asymmetric.bits(),
        ];
        assert_eq!(rt; found, sets, "{first:?} {second:?} {third:?}");
        assert_eq!(rt; classes.good.bits(), 7);
    }
}
