//! What a node gives at a tick, as plain numbers.
ghost use Rattle.std.specs.Prelude.{◌≡◌, ◌≤◌, Option, is_some, length, take};
ghost use Rattle.rb_rules.specs.Core.{Act as CoreAct};
ghost use Rattle.rb_rules.specs.declared.message.Version.{Version};
ghost use Rattle.rb_node.specs.Acts.{IsWholeAct};
ghost use Rattle.rb_host.specs.Acts.{IsHostAct, delivery_shown, epoch_shown, want_shown};

use rb_base::{Delivery, Heard};
use rb_node::{Act, Epoch, Want};

/// The start of a frame, if `begins`: the frame's number, its first tick by the node's own clock,
/// and whom the node holds convicted, BIUs and RMUs as masks. Else all numbers are 0.
#[repr(C)]
#[derive(Clone, Copy, Debug, PartialEq, Eq)]
pub struct HostEpoch {
    pub begins: bool,
    pub frame: u32,
    pub tick: u64,
    pub biu: u16,
    pub rmu: u16,
}

/// A delivery, if `delivers`: in which slot of which frame, of which BIU, and the word; if that is
/// none, `none` is true and `word` 0. Else all numbers are 0.
#[repr(C)]
#[derive(Clone, Copy, Debug, PartialEq, Eq)]
pub struct HostDelivery {
    pub delivers: bool,
    pub none: bool,
    pub sender: u8,
    pub slot: u16,
    pub frame: u32,
    pub word: u32,
}

/// What a node gives at a tick: the message that it sends, in the first `length` bytes, 0 for none;
/// whether it closed a window; the frame that starts; and what it delivers.
#[repr(C)]
#[derive(Clone, Copy, Debug, PartialEq, Eq)]
pub struct HostAct {
    pub message: [u8; 12],
    pub length: u8,
    pub closes: bool,
    pub epoch: HostEpoch,
    pub delivery: HostDelivery,
}

/// What a node wants to be handed for a tick: nothing (0), its request (1), or its word in a data
/// slot (2).
#[repr(C)]
#[derive(Clone, Copy, Debug, PartialEq, Eq)]
pub struct HostWant {
    pub what: u8,
    pub slot: u16,
}

// The start of a frame in plain numbers.
fn epoch_shown(epoch: Option<Epoch>) -> HostEpoch
    ensures { result ≡ epoch_shown epoch }
{
    match epoch {
        Some(epoch) => HostEpoch {
            begins: true,
            frame: epoch.frame,
            tick: epoch.tick,
            biu: epoch.biu,
            rmu: epoch.rmu,
        },
        None => HostEpoch {
            begins: false,
            frame: 0,
            tick: 0,
            biu: 0,
            rmu: 0,
        },
    }
}

// A delivery in plain numbers.
fn delivery_shown(delivered: Option<Delivery>) -> HostDelivery
    ensures { result ≡ delivery_shown delivered }
{
    match delivered {
        Some(delivery) => {
            let (none, word) = match delivery.value {
                Heard::Word(word) => (false, word),
                Heard::Fault => (true, 0),
            };
            HostDelivery {
                delivers: true,
                none,
                sender: delivery.sender,
                slot: delivery.slot,
                frame: delivery.frame,
                word,
            }
        }
        None => HostDelivery {
            delivers: false,
            none: false,
            sender: 0,
            slot: 0,
            frame: 0,
            word: 0,
        },
    }
}

// Puts the bytes of a message to the front, and gives how many there are.
fn put_message(bytes: &[u8], message: &mut [u8; 12]) -> u8
    requires { length bytes.now ≤ 12 }
    ensures many { result ≡ length bytes.now }
    ensures front { take result message.new ≡ bytes.now }
{
    let length = bytes.len();
    message[..length].copy_from_slice(bytes);
    length as u8
}

// What a node gives at a tick in plain numbers.
pub(crate) fn act_shown(act: &Act) -> HostAct
    ensures { (version : Version) (x : CoreAct) → IsWholeAct version act.now x
        → IsHostAct version result x }
{
    let mut message = [0; 12];
    let length = match &act.send {
        Some(bytes) => put_message(bytes.as_slice(), &mut message),
        None => 0,
    };
    HostAct {
        message,
        length,
        closes: act.closed.is_some(),
        epoch: epoch_shown(act.epoch),
        delivery: delivery_shown(act.delivered),
    }
}

// What a node wants in plain numbers.
pub(crate) fn want_shown(want: Want) -> HostWant
    ensures { result ≡ want_shown want }
{
    match want {
        Want::Nothing => HostWant { what: 0, slot: 0 },
        Want::Request => HostWant { what: 1, slot: 0 },
        Want::Data { slot } => HostWant { what: 2, slot },
    }
}
