// The number and the layer of each refusal of a field: written case by case, so that each stands beside its name as in its definition.
ghost use Rattle.std.specs.Prelude.{◌≡◌};
ghost use Rattle.algebra.specs.Refusals.{field_number, field_layer};

use crate::faults::{FieldFault, Layer};

impl FieldFault {
    pub fn number(self) -> u32
        ensures { result ≡ field_number self }
    {
        match self {
            FieldFault::UnlistedModulus => 1,
            FieldFault::NotNonresidue => 2,
            FieldFault::NotNonsquare => 3,
            FieldFault::NotElement => 6,
            FieldFault::NoRoot => 7,
        }
    }

    pub fn layer(self) -> Layer
        ensures { result ≡ field_layer self }
    {
        match self {
            FieldFault::UnlistedModulus
            | FieldFault::NotNonresidue
            | FieldFault::NotNonsquare
            | FieldFault::NotElement
            | FieldFault::NoRoot => Layer::Field,
        }
    }
}
