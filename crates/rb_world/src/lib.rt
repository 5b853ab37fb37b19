//! A run, event by event: all nodes of a bus, with what is pending at each.
#![tactic(auto)]

pub use drive::{Drive, FirstDrive, MemDrive};
pub use observing::Observer;
pub use rb_world_book::{Cause, FrameRecord, NodeLine, PortLine, SlotLine, SlotRecord, Turn};
pub use site::Site;
pub use ties::Ties;
pub use world::World;

mod asking;
mod bus;
mod calm;
pub mod drive;
mod due;
mod handing;
mod last;
mod next;
pub mod observing;
mod opening;
mod proceeding;
mod run;
mod scene;
pub mod site;
mod sweeping;
mod taking;
mod ticking;
pub mod ties;
mod trailing;
pub mod world;
