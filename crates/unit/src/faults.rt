// What a unit refuses.
use crate::states::State;
use algebra::FieldFault;
use code::CodeFault;

#[derive(Clone, Copy, PartialEq, Eq, Debug)]
pub enum UnitFault {
    // The field refuses a step.
    Field(FieldFault),
    // The length of blocks is below 5 or above 1024.
    BlockLength,
    // Alpha is no element, is zero, or one of its powers below the length is one.
    Generator,
    // The order does not fit this state.
    WrongState(State),
    // An opening names this many blocks: none, or more than 4096.
    BlockCount(u32),
    // The block of this number is not the next one.
    OutOfTurn(u32),
    // The corrector refuses the block of this number.
    Block { number: u32, fault: CodeFault },
}
