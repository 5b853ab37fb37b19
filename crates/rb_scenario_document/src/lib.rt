//! TOML documents of scenarios: which keys a table may have and in which form, and the values at
//! them.
#![tactic(auto)]

pub mod fields;
pub mod forms;
pub mod names;
pub mod values;
pub mod walk;

pub use fields::{Field, Form};
pub use forms::{has_unknown_key, has_wrong_form, lacks_key};
