// The number and the layer of each refusal of the program: written case by case, so that each stands beside its name as in its definition.
ghost use Rattle.std.specs.Prelude.{◌≡◌};
ghost use Rattle.console.specs.Refusals.{shift_number, shift_layer};

use crate::faults::ShiftFault;
use algebra::Layer;

impl ShiftFault {
    pub fn number(self) -> u32
        ensures { result ≡ shift_number self }
    {
        match self {
            ShiftFault::Unreadable(_) => 14,
            ShiftFault::Field(fault) => fault.number(),
            ShiftFault::Unit(fault) => fault.number(),
        }
    }

    pub fn layer(self) -> Layer
        ensures { result ≡ shift_layer self }
    {
        match self {
            ShiftFault::Unreadable(_) => Layer::Unit,
            ShiftFault::Field(fault) => fault.layer(),
            ShiftFault::Unit(fault) => fault.layer(),
        }
    }
}
