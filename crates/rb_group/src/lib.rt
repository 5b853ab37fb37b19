//! Groups of replicas: several BIUs that offer the same, and one value for them at each port in
//! each frame. Both voters and the form of a group are this project's own.
#![tactic(auto)]

pub mod group;
pub mod voters;
mod votes;

pub use group::Group;
pub use voters::{Pick, Voter, Voters, Which};
pub use votes::{mid_of, most_of};
