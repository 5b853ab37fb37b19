//! The names that are used in lines.
ghost use Rattle.std.specs.Prelude.{◌≡◌, ◌≢◌, ◌≤◌, true, false, [], length, slice_index_or};
ghost use Rattle.rb_report.specs.Report.{cause_text, log_refusals, refusal_of, refusals, scenario_refusals, summaries};

use rb_rules::Cause;

pub(crate) fn cause_name(cause: Cause) -> &'static str
    ensures name { result.now ≡ cause_text cause }
    ensures short { length result.now ≤ 10 }
{
    match cause {
        Cause::FewGoodBiu => "FewGoodBiu",
        Cause::FewGoodRmu => "FewGoodRmu",
        Cause::TwoSided => "TwoSided",
    }
}

pub(crate) fn summary_name(which: u8) -> &'static str
    requires { which ≤ 3 }
    ensures name { result.now ≡ slice_index_or summaries which [] }
    ensures short { length result.now ≤ 10 }
{
    match which {
        0 => "frames",
        1 => "deliveries",
        2 => "convicted",
        _ => "spread",
    }
}

// The name of the refusal with this code.
pub(crate) fn refusal_name(code: u8, of_log: bool) -> &'static str
    requires least { 1 ≤ code }
    requires most { code ≤ length (refusals of_log) }
    requires used { code ≢ 13 }
    ensures name { result.now ≡ (refusal_of of_log code).name }
    ensures short { length result.now ≤ 12 }
{
    if of_log {
        log_refusal(code)
    } else {
        scenario_refusal(code)
    }
}

fn scenario_refusal(code: u8) -> &'static str
    requires least { 1 ≤ code }
    requires most { code ≤ length scenario_refusals }
    requires used { code ≢ 13 }
    ensures name { result.now ≡ (refusal_of false code).name }
    ensures short { length result.now ≤ 12 }
{
    match code {
        1 => "NotToml",
        2 => "MissingKey",
        3 => "UnknownKey",
        4 => "WrongType",
        5 => "OutOfRange",
        6 => "PlanFails",
        7 => "ClockBounds",
        8 => "DelayBounds",
        9 => "StartApart",
        10 => "SayOfGood",
        11 => "TooMany",
        12 => "NoSuchNode",
        _ => "NoSuchMember",
    }
}

fn log_refusal(code: u8) -> &'static str
    requires least { 1 ≤ code }
    requires most { code ≤ length log_refusals }
    ensures name { result.now ≡ (refusal_of true code).name }
    ensures short { length result.now ≤ 12 }
{
    match code {
        1 => "BadMagic",
        2 => "BadField",
        3 => "Truncated",
        4 => "AfterEnd",
        _ => "NotBiu",
    }
}
