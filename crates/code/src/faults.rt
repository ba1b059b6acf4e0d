// Why a block is refused.
use algebra::FieldFault;

#[derive(Clone, Copy, PartialEq, Eq, Debug)]
pub enum CodeFault {
    // the block has this many symbols
    Length(usize),
    // the symbol at this place is none that the field has
    Symbol { place: usize, fault: FieldFault },
    // no code word is near enough
    NoCodeWord,
}
