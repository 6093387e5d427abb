// Each call of the stage over views, under one name: the core's own, with its contract.
#![tactic(auto)]

pub use blur::length::{estimate_line_length, estimate_line_length_with};
pub use deblur::{directional_unsharp_line_into, van_cittert_estimate_into, van_cittert_line_into};
pub use job::restore;
pub use pgm::write as write_pgm;
pub use resize::{box_downscale_half, halve};
pub use sharpen::fixed_binomial_unsharp_into;
pub use tensor::direction::estimate_line_direction;
