//! Reading the header of a log.
ghost use Rattle.std.specs.Prelude.{◌≡◌, ◌≤◌, IfOk, None, OnOk, length, true};
ghost use Rattle.rb_base.specs.Sizes.{Sizes};
ghost use Rattle.rb_rules.specs.Lawful.{IsNodeOf};
ghost use Rattle.rb_rules.specs.Plan.{IsPlan, first_failing};
ghost use Rattle.rb_log.specs.Header.{extended_in, feasible_in, has_second_form, header_in, node_in, plan_in, sizes_in, whole_in};

use crate::field::field;
use crate::refusal::LogRefusal;
use rb_base::{NodeName, Shape};
use rb_plan::{Feasible, Plan};
use rb_rules::Version;

const FIRST_FORM: u64 = 0x5242_4c31;

const SECOND_FORM: u64 = 0x5242_4c32;

/// What a header says, and how many bytes it has.
#[derive(Clone, Copy)]
pub(crate) struct Header {
    pub plan: Feasible,
    pub node: NodeName,
    pub size: usize,
}

#[tactic(auto, unfolding(crate::specs::Header::has_second_form))]
fn has_second_form(bytes: &[u8]) -> Result<bool, LogRefusal>
    ensures { result ≡ has_second_form bytes.now }
{
    let magic = field(bytes, 0, 4, 0, 0xffff_ffff)?;
    if magic == FIRST_FORM {
        Ok(false)
    } else if magic == SECOND_FORM {
        Ok(true)
    } else {
        Err(LogRefusal::BadMagic)
    }
}

#[tactic(auto, unfolding(crate::specs::Header::sizes_in))]
fn sizes_in(bytes: &[u8]) -> Result<Shape, LogRefusal>
    ensures { result ≡ sizes_in bytes.now }
{
    let bius = field(bytes, 4, 1, 1, 16)?;
    let rmus = field(bytes, 5, 1, 1, 16)?;
    let slots = field(bytes, 6, 2, 1, 64)?;
    match Shape::new(bius as u8, rmus as u8, slots as u16) {
        Some(shape) => Ok(shape),
        None => unreachable!(),
    }
}

// The plan as form 1 has it.
#[tactic(auto, unfolding(crate::specs::Header::plan_in))]
fn plan_in(bytes: &[u8]) -> Result<Plan, LogRefusal>
    ensures value { result ≡ plan_in bytes.now }
    ensures plan { IfOk result IsPlan }
{
    let u = field(bytes, 8, 4, 2, 1_000_000)?;
    let r = field(bytes, 12, 4, 0, u - 1)?;
    let dmin = field(bytes, 16, 4, 1, 1_000_000_000)?;
    let dmax = field(bytes, 20, 4, dmin, 1_000_000_000)?;
    let l = field(bytes, 24, 4, 1, 1000)?;
    let h = field(bytes, 28, 4, 1, 1000)?;
    let v = field(bytes, 32, 4, 1, 1000)?;
    let z = field(bytes, 36, 4, 1, 1000)?;
    let c = field(bytes, 40, 4, 0, 1000)?;
    let p = field(bytes, 44, 4, 0, 1_000_000_000)?;
    Ok(Plan {
        u: u as u32,
        r: r as u32,
        dmin: dmin as u32,
        dmax: dmax as u32,
        l: l as u32,
        h: h as u32,
        v: v as u32,
        z: z as u32,
        c: c as u32,
        p: p as u32,
        version: Version::One,
        probation: 0,
    })
}

#[tactic(auto, unfolding(crate::specs::Header::feasible_in))]
fn feasible_in(shape: &Shape, bytes: &[u8]) -> Result<Plan, LogRefusal>
    ensures value { result ≡ feasible_in shape.now bytes.now }
    ensures plan { IfOk result IsPlan }
    ensures feasible { IfOk result (λ p. first_failing shape.now p ≡ None) }
{
    let plan = plan_in(bytes)?;
    match Feasible::new(shape, &plan) {
        Ok(_) => Ok(plan),
        Err(_) => Err(LogRefusal::BadField(8)),
    }
}

#[tactic(auto, unfolding(crate::specs::Header::node_in))]
fn node_in(shape: &Shape, bytes: &[u8]) -> Result<NodeName, LogRefusal>
    ensures value { result ≡ node_in shape.now bytes.now }
    ensures node { IfOk result (IsNodeOf shape.now) }
    ensures inside { OnOk result (50 ≤ length bytes.now) }
{
    if field(bytes, 48, 1, 0, 1)? == 0 {
        let index = field(bytes, 49, 1, 0, u64::from(shape.biu()) - 1)?;
        Ok(NodeName::Biu(index as u8))
    } else {
        let index = field(bytes, 49, 1, 0, u64::from(shape.rmu()) - 1)?;
        Ok(NodeName::Rmu(index as u8))
    }
}

// The plan with what form 2 adds.
#[tactic(auto, unfolding(crate::specs::Header::extended_in))]
fn extended_in(plan: &Plan, bytes: &[u8]) -> Result<Plan, LogRefusal>
    requires { IsPlan plan.now }
    ensures value { result ≡ extended_in plan.now bytes.now }
    ensures plan { IfOk result IsPlan }
    ensures same { IfOk result (λ p. (sizes : Sizes)
        → first_failing sizes p ≡ first_failing sizes plan.now) }
    ensures inside { OnOk result (54 ≤ length bytes.now) }
{
    let version = field(bytes, 50, 1, 1, 2)?;
    let most = if version == 2 { 255 } else { 0 };
    let bus = field(bytes, 51, 1, 0, most)?;
    let probation = field(bytes, 52, 2, 0, 4096)?;
    Ok(Plan {
        version: if version == 2 {
            Version::Two { bus: bus as u8 }
        } else {
            Version::One
        },
        probation: probation as u16,
        ..*plan
    })
}

fn whole_in(second: bool, plan: &Plan, bytes: &[u8]) -> Result<Plan, LogRefusal>
    requires { IsPlan plan.now }
    ensures value { result ≡ whole_in second plan.now bytes.now }
    ensures plan { IfOk result IsPlan }
    ensures same { IfOk result (λ p. (sizes : Sizes)
        → first_failing sizes p ≡ first_failing sizes plan.now) }
    ensures inside { OnOk result (second ≡ true → 54 ≤ length bytes.now) }
{
    if second {
        extended_in(plan, bytes)
    } else {
        Ok(*plan)
    }
}

/// The header at the front of the bytes, or the first fault in it.
#[tactic(auto, unfolding(crate::specs::Header::header_in))]
pub(crate) fn header_in(bytes: &[u8]) -> Result<Header, LogRefusal>
    ensures value { result ≡ header_in bytes.now }
    ensures node { IfOk result (λ h. IsNodeOf h.plan.sizes h.node) }
    ensures inside { IfOk result (λ h. h.size ≤ length bytes.now) }
{
    let second = has_second_form(bytes)?;
    let shape = sizes_in(bytes)?;
    let plan = feasible_in(&shape, bytes)?;
    let node = node_in(&shape, bytes)?;
    let plan = whole_in(second, &plan, bytes)?;
    match Feasible::new(&shape, &plan) {
        Ok(plan) => Ok(Header {
            plan,
            node,
            size: if second { 54 } else { 50 },
        }),
        Err(_) => unreachable!(),
    }
}
