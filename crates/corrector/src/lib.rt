// The corrector of blocks: it finds the one code word within two symbols of a block, or refuses.
#![tactic(auto)]

mod arithmetic;
mod corrector;
mod decoder;
mod double;
mod places;
mod restoration;
mod single;
mod syndromes;

pub use corrector::correct;
pub use restoration::{Damage, round_trip};
