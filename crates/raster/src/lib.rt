// The raster's geometry: directions, the lines of a direction, and what stands beyond a line's ends.
#![tactic(auto)]

pub mod border;
pub mod direction;
pub mod lines;
