// One line: its mean, and its restoration in a lent scratch.
#![tactic(auto)]

pub mod kernel;
mod mean;
mod step;
mod window;
