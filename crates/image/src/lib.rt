// Pictures in the caller's bytes: the refusals of every call, layouts, views, and rows copied.
#![tactic(auto)]

pub mod kernel;
mod layout;
mod refusal;
pub mod view;

pub use layout::{Layout, check_sides};
pub use refusal::Refusal;
pub use view::{Gray8View, Gray8ViewMut};
