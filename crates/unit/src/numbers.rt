// The numbers of states and refusals, and the layers of refusals: written case by case, so that each stands
// beside its name as in its definition.
ghost use Rattle.std.specs.Prelude.{◌≡◌};
ghost use Rattle.unit.specs.Refusals.{unit_number, unit_layer};
ghost use Rattle.unit.specs.States.{state_number};

use crate::faults::UnitFault;
use crate::states::State;
use algebra::Layer;

impl State {
    pub fn number(self) -> u32
        ensures { result ≡ state_number self }
    {
        match self {
            State::Parked => 0,
            State::Loading => 1,
            State::Ready => 2,
            State::Steering => 3,
        }
    }
}

impl UnitFault {
    pub fn number(self) -> u32
        ensures { result ≡ unit_number self }
    {
        match self {
            UnitFault::Field(fault) => fault.number(),
            UnitFault::BlockLength => 4,
            UnitFault::Generator => 5,
            UnitFault::WrongState(_) => 8,
            UnitFault::BlockCount(_) => 9,
            UnitFault::OutOfTurn(_) => 10,
            UnitFault::Block { number: _, fault } => fault.number(),
        }
    }

    pub fn layer(self) -> Layer
        ensures { result ≡ unit_layer self }
    {
        match self {
            UnitFault::Field(fault) => fault.layer(),
            UnitFault::Block { number: _, fault } => fault.layer(),
            UnitFault::BlockLength
            | UnitFault::Generator
            | UnitFault::WrongState(_)
            | UnitFault::BlockCount(_)
            | UnitFault::OutOfTurn(_) => Layer::Unit,
        }
    }
}
