// What a field refuses, and the layers that refusals come from.

// The part of the unit that a refusal comes from.
#[derive(Clone, Copy, PartialEq, Eq, Debug)]
pub enum Layer {
    Field,
    Corrector,
    Unit,
}

// Why a field was not made, or gave no root.
#[derive(Clone, Copy, PartialEq, Eq, Debug)]
pub enum FieldFault {
    // The modulus is not one of those that fields are made of.
    UnlistedModulus,
    // The number is not from 1 to the modulus less one, or is a square.
    NotNonresidue,
    // The value is no element, or is a square, so the field cannot be extended by its root.
    NotNonsquare,
    // The value is no element.
    NotElement,
    // No element squares to this one.
    NoRoot,
}
