// Measuring the length of a picture's smear, along a direction.
#![tactic(auto)]

pub mod length;
mod records;
mod select;

pub use length::{estimate_line_length, estimate_line_length_with};
pub use tensor::estimate_line_direction;
