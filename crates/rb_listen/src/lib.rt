//! A passive listener: what it learns of the bus, when a frame comes to its end, what one frame
//! tells of the next, and how it then follows.
#![tactic(auto)]

pub use follower::Follower;
pub use heed::Heed;
pub use lesson::{First, Lesson};
pub use listener::Listener;
pub use passes::Call;
pub use rb_rules::Epoch;

pub mod ahead;
pub mod follower;
pub mod heed;
pub mod lesson;
pub mod listener;
mod parts;
pub mod passes;
pub mod search;
