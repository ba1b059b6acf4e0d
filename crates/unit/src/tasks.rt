// The tasks of a working day.
use crate::faults::UnitFault;
use crate::states::Kind;

// An order with its own block, and the answer once it is given.
// The block is a `Vec` that the caller allocates: this crate allocates nothing.
#[derive(Drop)]
pub struct Task<E> {
    pub kind: Kind,
    pub number: u32,
    pub block: Vec<E>,
    pub answer: Option<Result<u32, UnitFault>>,
}
