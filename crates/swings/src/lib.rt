// The swings of a picture's lines, written to the records that a caller lends (document 01, Length).
#![tactic(auto)]

pub mod kernel;
mod rises;
mod run;
mod samples;
pub mod scan;

// What a run of a line that rises or falls far enough gives: the distance between its 20% and 80% levels, and by how
// much it changes.
#[repr(C)]
#[derive(Clone, Copy, Debug, PartialEq)]
pub struct Swing {
    pub width: f64,
    pub swing: i32,
}
