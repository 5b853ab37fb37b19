//! Reading a document.
ghost use Rattle.std.specs.Prelude.{◌≡◌, ◌⊎◌, Some, None, true, IfErr, IfOk};
ghost use Rattle.toml.specs.View.{table_view};
ghost use Rattle.rb_scenario.specs.Acceptance.{IsAccepted, IsBrokenBy, IsRefused, Says, broken_by, first_broken, as_scenario};
ghost use Rattle.rb_scenario_entries.specs.Bus.{IsBus, bus_of};
ghost use Rattle.rb_rules.specs.Entries.{IsListed};
ghost use Rattle.rb_rules.specs.Lawful.{IsLawful};
ghost use Rattle.rb_scenario.specs.Reading.{fits_bus, scenario_of, scenario_on};

use crate::hosts::{apps_of, requests_of, words_of};
use crate::reading::{delays_of, fits_bus, sayings_of};
use crate::rules::{are_few, start_together};
use crate::scenario::{ClockList, DelayList, SayList, Scenario};
use rb_base::{Biu, Rmu};
use rb_plan::Feasible;
use rb_scenario_document::{has_unknown_key, has_wrong_form, lacks_key};
use rb_scenario_entries::bus::{Bus, bus_in};
use rb_scenario_entries::clocks::clocks_of;
use rb_scenario_entries::faults::onsets_of;
use rb_scenario_entries::refusal::Refusal;
use std::alloc::Global;
use toml::Table;

/// The scenario that a document in range says, or the first rule that it breaks.
pub(crate) fn scenario_on(alloc: Global, bus: &Bus, table: &Table) -> Result<Scenario, Refusal>
    requires bus { IsBus bus.now }
    requires fits { fits_bus bus.now (table_view table.now) ≡ true }
    ensures scenario { IfOk result (λ s. as_scenario s
        ≡ scenario_on bus.now (table_view table.now)) }
    ensures unbroken { IfOk result (λ _. broken_by (scenario_on bus.now (table_view table.now))
        ≡ None) }
    ensures refused { IfErr result (IsBrokenBy (scenario_on bus.now (table_view table.now))) }
{
    let plan = match Feasible::new(&bus.shape, &bus.plan) {
        Ok(plan) => plan,
        Err(n) => return Err(Refusal::PlanFails(n)),
    };
    let clocks = match clocks_of(alloc, bus, table) {
        Ok(clocks) => clocks,
        Err(refusal) => return Err(refusal),
    };
    let (base, rules) = match delays_of(alloc, bus, table) {
        Ok(delays) => delays,
        Err(refusal) => return Err(refusal),
    };
    if !start_together(bus.plan.p, &clocks) {
        return Err(Refusal::StartApart);
    }
    let biu_onset = onsets_of::<Biu>(bus, table);
    let rmu_onset = onsets_of::<Rmu>(bus, table);
    let says = match sayings_of(alloc, bus, table, &biu_onset, &rmu_onset) {
        Ok(says) => says,
        Err(refusal) => return Err(refusal),
    };
    if !are_few(&says, &rules, &clocks) {
        return Err(Refusal::TooMany);
    }
    Ok(Scenario {
        plan,
        frames: bus.frames,
        requests: requests_of(bus.shape.biu(), table),
        words: words_of(bus.shape.biu(), table),
        apps: apps_of(table),
        clocks: ClockList::new(clocks),
        delays: DelayList::new(base, rules),
        biu_onset,
        rmu_onset,
        says: SayList::new(says),
    })
}

/// The bus of a document that keeps the rules on keys, forms and ranges, or the first of them that
/// it breaks.
fn bus_for(table: &Table) -> Result<Bus, Refusal>
    ensures bus { IfOk result IsBus }
    ensures value { IfOk result (λ b. b ≡ bus_of (table_view table.now)) }
    ensures fits { IfOk result (λ b. fits_bus b (table_view table.now) ≡ true) }
    ensures first { IfOk result (λ _. first_broken (table_view table.now)
        ≡ broken_by (scenario_of (table_view table.now))) }
    ensures refused { IfErr result (λ e. first_broken (table_view table.now) ≡ Some e) }
{
    if lacks_key(table) {
        return Err(Refusal::MissingKey);
    }
    if has_unknown_key(table) {
        return Err(Refusal::UnknownKey);
    }
    if has_wrong_form(table) {
        return Err(Refusal::WrongType);
    }
    let bus = match bus_in(table) {
        Some(bus) => bus,
        None => return Err(Refusal::OutOfRange),
    };
    if fits_bus(&bus, table) {
        Ok(bus)
    } else {
        Err(Refusal::OutOfRange)
    }
}

/// The scenario that a document says, or the first rule that it breaks.
fn read_table(alloc: Global, table: &Table) -> Result<Scenario, Refusal>
    ensures says { IfOk result (Says (table_view table.now)) }
    ensures lawful { IfOk result (λ s. IsLawful (as_scenario s)) }
    ensures listed { IfOk result (λ s. IsListed (as_scenario s)) }
    ensures refused { IfErr result (λ e. (e ≡ Refusal.OutOfMemory)
        ⊎ (first_broken (table_view table.now) ≡ Some e)) }
{
    match bus_for(table) {
        Ok(bus) => scenario_on(alloc, &bus, table),
        Err(refusal) => Err(refusal),
    }
}

/// The scenario that the bytes of a TOML document say, or why there is none: the first rule of
/// `Refusal` that is broken anywhere in the document. Out of memory may be the answer at any time.
/// The rules and the form are this project's own.
pub fn read(alloc: Global, bytes: &[u8]) -> Result<Scenario, Refusal>
    ensures accepted { IfOk result (IsAccepted bytes.now) }
    ensures lawful { IfOk result (λ s. IsLawful (as_scenario s)) }
    ensures listed { IfOk result (λ s. IsListed (as_scenario s)) }
    ensures refused { IfErr result (IsRefused bytes.now) }
{
    let table = match toml::table_from_slice(alloc, bytes) {
        Ok(table) => table,
        Err(error) => {
            return Err(if error.is_memory() {
                Refusal::OutOfMemory
            } else {
                Refusal::NotToml
            });
        }
    };
    read_table(alloc, &table)
}
