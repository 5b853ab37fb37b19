//! Letters of 1 to 255 bytes over the words of a bus: how they are spelled, a sender that gives
//! their words one by one, and a receiver that puts them together again. The spelling is this
//! project's own: first a word with the letter's length, then a word for each three bytes, of which
//! the last is filled with zeros. The word 0 says nothing and may be anywhere.
#![tactic(auto)]

mod reading;
pub mod receiver;
pub mod refusal;
pub mod sender;
mod spelling;

pub use receiver::LongReceiver;
pub use refusal::LongRefusal;
pub use sender::LongSender;
