//! A bridge of two buses, as definitions: which BIUs belong together, what crosses over frame by
//! frame, and what is said of it. `src/` has the plain types that the definitions speak of. A
//! bridge is this project's own.
#![tactic(auto)]

pub mod bank;

pub use bank::{Bank, Pair};
