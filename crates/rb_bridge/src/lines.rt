//! The lines that only a bridge has. Their form is that of all lines of the project.
ghost use Rattle.std.specs.Prelude.{◌≡◌};
ghost use Rattle.rb_rules_bridge.specs.Texts.{cross_text, side_breach_text};
ghost use Rattle.rb_bridge.specs.Refusals.{IsBridgeRefusal, bank_of, bridge_refused_text};

use crate::fields::{
    bank_name, cause_name, push_biu, push_heard, push_last, push_number, push_text, refusal_name,
};
use arrayvec::ArrayString;
use rb_base::{Heard, Place};
use rb_rules::Cause;

/// The word that BIU `receiver` of the left or the right bus finds in a frame for those that
/// crossed, as `x FRAME left RECEIVER WORD` or `x FRAME right RECEIVER WORD`. The word is `none` if
/// `value` is Fault.
pub fn cross_line(frame: u32, right: bool, receiver: u8, value: Heard) -> ArrayString<96>
    ensures bytes { result.bytes ≡ cross_text frame (bank_of right) receiver value }
{
    let mut line = ArrayString::new();
    line.push_str("x");
    push_number(&mut line, frame);
    push_text(&mut line, bank_name(right));
    push_biu(&mut line, receiver);
    push_heard(&mut line, value);
    line.push_str("\n");
    line
}

/// The end of a bridge at a breach of the fault premise on one of its buses, as `breach left FRAME
/// SLOT STAGE CAUSE`, or `right`: the place, and which part of the premise fails there.
pub fn side_breach_line(right: bool, place: Place, cause: Cause) -> ArrayString<96>
    ensures bytes { result.bytes ≡ side_breach_text (bank_of right) place cause }
{
    let mut line = ArrayString::new();
    line.push_str("breach");
    push_text(&mut line, bank_name(right));
    push_number(&mut line, place.frame);
    push_number(&mut line, place.slot);
    push_number(&mut line, place.stage);
    push_text(&mut line, cause_name(cause));
    line.push_str("\n");
    line
}

/// Why a bridge is refused, as `refused CODE NAME`: the rule that it breaks, 21 to 25. With 23 and
/// 24 a last field is the code of the rule that the left or the right bus's scenario breaks.
pub fn bridge_refused_line(code: u8, detail: Option<u64>) -> ArrayString<96>
    requires { IsBridgeRefusal code detail }
    ensures bytes { result.bytes ≡ bridge_refused_text code detail }
{
    let mut line = ArrayString::new();
    line.push_str("refused");
    push_number(&mut line, code);
    push_text(&mut line, refusal_name(code));
    push_last(&mut line, detail);
    line.push_str("\n");
    line
}
