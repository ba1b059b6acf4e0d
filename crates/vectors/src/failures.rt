// What ends the program before all values are executed.
use algebra::{FieldFault, RootedField};
use quadratic::Unextended;
use std::alloc::AllocError;
use std::{fmt, io};
use unit::{Rejected, UnitFault};

#[derive(Drop)]
pub enum Failure {
    // There is no memory, or no output.
    Io(io::Error),
    // A field or a unit that values are executed with is refused.
    Refused(UnitFault),
}

// Told as what it holds, so that an output that fails ends the program with the error alone.
impl fmt::Debug for Failure {
    fn fmt<W: fmt::Write>(&self, f: &mut fmt::Formatter<W>) -> fmt::Result {
        match self {
            Failure::Io(error) => fmt::Debug::fmt(error, f),
            Failure::Refused(fault) => fmt::Debug::fmt(fault, f),
        }
    }
}

impl From<io::Error> for Failure {
    fn from(error: io::Error) -> Failure {
        Failure::Io(error)
    }
}

impl From<AllocError> for Failure {
    fn from(error: AllocError) -> Failure {
        Failure::Io(io::Error::from(error))
    }
}

impl From<FieldFault> for Failure {
    fn from(fault: FieldFault) -> Failure {
        Failure::Refused(UnitFault::Field(fault))
    }
}

impl<F: Drop> From<Unextended<F>> for Failure {
    fn from(refusal: Unextended<F>) -> Failure {
        Failure::from(refusal.fault)
    }
}

impl<F: RootedField + Drop> From<Rejected<F>> for Failure {
    fn from(refusal: Rejected<F>) -> Failure {
        Failure::Refused(refusal.fault)
    }
}
