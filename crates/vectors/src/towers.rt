// Every root of small fields and their extensions, against squares made by multiplication.
use crate::failures::Failure;
use algebra::{Field, RootedField, find_root};
use prime_field::PrimeField;
use quadratic::Quad;
use std::alloc::{AllocError, Global};
use std::fmt;

// How many elements have a root, as they should, and how many have none, as they should.
#[derive(Clone, Copy)]
pub struct Tally {
    squares: usize,
    others: usize,
}

impl Tally {
    // Tries each element of a field.
    fn of<F: RootedField>(field: &F, elements: &[F::Elem]) -> Tally {
        Tally {
            squares: elements.iter().filter(|&&a| finds_root(field, a)).count(),
            others: elements
                .iter()
                .filter(|&&a| finds_none(field, elements, a))
                .count(),
        }
    }
}

impl fmt::Display for Tally {
    fn fmt<W: fmt::Write>(&self, f: &mut fmt::Formatter<W>) -> fmt::Result {
        let Tally { squares, others } = self;
        write!(f, "{squares} squares, {others} others")
    }
}

// The tallies at the heights 0, 1 and 2 above the field of p, which is made here, as in `fields`.
pub fn every_root(
    heap: Global,
    p: u32,
    r: u32,
    beta: u32,
    gamma: (u32, u32),
) -> Result<[Tally; 3], Failure> {
    let numbers: Vec<u32> = (0..p).collect(heap)?;
    let pairs = all_pairs(heap, numbers.as_slice())?;
    let fours = all_pairs(heap, pairs.as_slice())?;
    let field = PrimeField::new(p, r)?;
    let ground = Tally::of(&field, numbers.as_slice());
    let double = Quad::new(field, beta)?;
    let middle = Tally::of(&double, pairs.as_slice());
    let quadruple = Quad::new(double, gamma)?;
    let top = Tally::of(&quadruple, fours.as_slice());
    Ok([ground, middle, top])
}

fn all_pairs<E: Copy>(heap: Global, elements: &[E]) -> Result<Vec<(E, E)>, AllocError> {
    elements
        .iter()
        .flat_map(|&low| elements.iter().map(move |&high| (low, high)))
        .collect(heap)
}

// Whether a root is found that squares to a.
fn finds_root<F: RootedField>(field: &F, a: F::Elem) -> bool {
    find_root(field, a).is_ok_and(|x| squares_to(field, x, a))
}

// Whether no root is found, and none of the elements squares to a.
fn finds_none<F: RootedField>(field: &F, elements: &[F::Elem], a: F::Elem) -> bool {
    find_root(field, a).is_err() && !elements.iter().any(|&x| squares_to(field, x, a))
}

fn squares_to<F: Field>(field: &F, x: F::Elem, a: F::Elem) -> bool {
    field.contains(x) && field.contains(a) && field.equal(field.mul(x, x), a)
}
