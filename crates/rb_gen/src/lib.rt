//! A scenario for measurements that is made from numbers drawn, and its text.
#![tactic(auto)]

pub mod draws;
pub mod generator;
pub mod text;

pub use draws::Draws;
pub use generator::generate;
pub use text::line;
