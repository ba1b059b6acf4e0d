// Quadratic extensions of rooted fields, and towers of them.
#![tactic(auto)]

mod arithmetic;
mod extension;
mod roots;
mod towers;

pub use extension::{Quad, Unextended};
pub use towers::{tower_keeps_laws, tower_signs_are_sgn0};
