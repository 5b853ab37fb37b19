//! The rules of the bus, as definitions: `specs/` has them, a module a subject, and `src/` the
//! plain types that they speak of.
#![tactic(auto)]

pub mod cause;
pub mod closing;
pub mod link;
pub mod message;
pub mod plan;
pub mod record;
pub mod role;
pub mod say;
pub mod sense;

pub use cause::Cause;
pub use closing::{Closed, Closing, SyncClosing};
pub use link::{Pattern, Rule};
pub use message::{Message, Tag, Version};
pub use plan::{Plan, Window};
pub use record::{Epoch, NodeLine, PortLine, SlotLine};
pub use role::Role;
pub use say::{Content, Say};
pub use sense::{Expect, Sense};
