// Block codes over a field: which elements may generate one, the sums of a block, and its refusals.
#![tactic(auto)]

mod codes;
mod distance;
mod faults;
mod generator;
mod numbers;
mod symbols;
mod syndromes;

pub use codes::{Code, Points};
pub use distance::distance_five;
pub use faults::CodeFault;
pub use generator::generates;
pub use symbols::first_non_element;
pub use syndromes::syndrome;
