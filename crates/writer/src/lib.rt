// The writer of blocks: it adds to the data of a block the four checks that make it a code word.
#![tactic(auto)]

mod division;
mod encoder;

pub use encoder::encode;
