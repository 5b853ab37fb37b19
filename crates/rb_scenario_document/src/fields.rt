//! Which keys a table may have, and of which form the values at them are.
ghost use Rattle.std.specs.Prelude.{◌≡◌};
ghost use Rattle.rb_scenario_document.specs.Fields.{clock_fields, fault_fields, link_fields, plan_fields, root_fields, say_fields};
ghost use Rattle.rb_scenario_document.specs.Shown.{fields_shown};

/// The form of a value. A pair is an array of two integers.
#[derive(Clone, Copy, Debug, PartialEq, Eq)]
pub enum Form {
    Integer,
    Text,
    Flag,
    Pair,
    Table,
    Integers,
    Texts,
    Pairs,
    Tables,
}

/// A key, whether it must be there, and the form of the value at it.
#[derive(Clone, Copy, Debug)]
pub struct Field {
    pub key: &'static str,
    pub needed: bool,
    pub form: Form,
}

macro_rules! fields {
    ($($key:literal $needed:literal $form:ident)*) => {
        [$(Field { key: $key, needed: $needed, form: Form::$form }),*]
    };
}

const ROOT: [Field; 16] = fields! {
    "biu" true Integer
    "rmu" true Integer
    "slots" true Integer
    "frames" true Integer
    "requests" false Integers
    "words" false Integers
    "apps" false Texts
    "plan" false Table
    "delay" false Integer
    "version" false Integer
    "bus" false Integer
    "probation" false Integer
    "clock" false Tables
    "link" false Tables
    "fault" false Tables
    "say" false Tables
};

const PLAN: [Field; 10] = fields! {
    "u" false Integer
    "r" false Integer
    "dmin" false Integer
    "dmax" false Integer
    "l" false Integer
    "h" false Integer
    "v" false Integer
    "z" false Integer
    "c" false Integer
    "p" false Integer
};

const CLOCK: [Field; 3] = fields! {
    "node" true Text
    "start" false Integer
    "ticks" false Pairs
};

const LINK: [Field; 6] = fields! {
    "from" true Text
    "to" true Text
    "delay" true Integer
    "frames" false Pair
    "slots" false Pair
    "stages" false Pair
};

const FAULT: [Field; 3] = fields! {
    "node" true Text
    "frame" true Integer
    "slot" true Integer
};

const SAY: [Field; 11] = fields! {
    "from" true Text
    "to" true Text
    "frames" true Pair
    "slots" true Pair
    "stages" true Pair
    "offset" false Integer
    "early" false Integer
    "word" false Integer
    "fault" false Flag
    "sync" false Flag
    "raw" false Text
};

/// The fields of the root.
#[tactic(auto, unfolding(crate::specs::Fields::root_fields))]
pub fn root_fields() -> &'static [Field]
    ensures { fields_shown result.now ≡ root_fields }
{
    &ROOT
}

/// The fields of the timing plan.
#[tactic(auto, unfolding(crate::specs::Fields::plan_fields))]
pub fn plan_fields() -> &'static [Field]
    ensures { fields_shown result.now ≡ plan_fields }
{
    &PLAN
}

/// The fields of a clock entry.
#[tactic(auto, unfolding(crate::specs::Fields::clock_fields))]
pub fn clock_fields() -> &'static [Field]
    ensures { fields_shown result.now ≡ clock_fields }
{
    &CLOCK
}

/// The fields of a link entry.
#[tactic(auto, unfolding(crate::specs::Fields::link_fields))]
pub fn link_fields() -> &'static [Field]
    ensures { fields_shown result.now ≡ link_fields }
{
    &LINK
}

/// The fields of a fault entry.
#[tactic(auto, unfolding(crate::specs::Fields::fault_fields))]
pub fn fault_fields() -> &'static [Field]
    ensures { fields_shown result.now ≡ fault_fields }
{
    &FAULT
}

/// The fields of a say entry.
#[tactic(auto, unfolding(crate::specs::Fields::say_fields))]
pub fn say_fields() -> &'static [Field]
    ensures { fields_shown result.now ≡ say_fields }
{
    &SAY
}
