//! A report of a run as a picture.
#![tactic(auto)]

pub mod column;
pub mod draw;
mod drawing;
pub mod drawn;
pub mod extent;
mod field;
pub mod form;
pub mod laws;
pub mod line;
pub mod markup;
mod overview;
mod pages;
mod places;
pub mod reading;
pub mod sheet;
pub mod status;
pub mod style;

pub use status::Status;
