// A unit that is being commissioned.
use algebra::RootedField;

// An open unit, one with its generator given, or a sealed one.
#[derive(Drop)]
pub enum Commission<F: RootedField> {
    Open(unit::Open<F>),
    Generator(unit::Open<F>, F::Elem),
    Sealed(unit::Sealed<F>),
}
