// The direction of a picture's smear.
#![tactic(auto)]

mod confidence;
pub mod direction;

pub use direction::estimate_line_direction;
