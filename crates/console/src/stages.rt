// How far a session has come, with the unit that it commissions.
use crate::commissions::Commission;
use prime_field::PrimeField;
use quadratic::Quad;

// Symbols are one, two or four numbers after no, one or two steps.
#[derive(Drop)]
pub enum Stage {
    Start,
    Prime(u32),
    Single(Commission<PrimeField>),
    Double(Commission<Quad<PrimeField>>),
    Quadruple(Commission<Quad<Quad<PrimeField>>>),
}
