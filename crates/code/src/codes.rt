// A code: a field, a generator, and the length of blocks.
ghost use Rattle.std.specs.Prelude.{◌≡◌, ◌≤◌, length, take, MatchOption, MatchResult};
ghost use Rattle.algebra.specs.Operations.{In};
ghost use Rattle.algebra.specs.Powers.{power};
ghost use Rattle.code.specs.Blocks.{Elements};
ghost use Rattle.code.specs.Generator.{Generates};
ghost use Rattle.code.specs.Refusals.{Misshapen};

use crate::faults::CodeFault;
use crate::generator::generates;
use crate::symbols::first_non_element;
use algebra::{Field, FieldFault};

// The code over a field whose blocks have `length` symbols,
// and whose code words have a zero sum at each of alpha to alpha⁴.
#[derive(Drop)]
pub struct Code<'a, F: Field> {
    pub field: &'a F,
    pub alpha: F::Elem,
    pub length: usize,
    ghost generator: { Generates (F.Field.ops field.now) alpha length },
}

// Alpha, alpha², alpha³ and alpha⁴.
// No array: of elements whose type is not known, it would ask each caller to show that four of them fit in memory.
#[derive(Clone, Copy)]
pub struct Points<E> {
    pub first: E,
    pub second: E,
    pub third: E,
    pub fourth: E,
}

impl<'a, F: Field> Code<'a, F> {
    // The code, if alpha generates codes of that length.
    pub fn new(field: &'a F, alpha: F::Elem, length: usize) -> Option<Code<'a, F>>
        ensures { MatchOption result (Generates (F.Field.ops field.now) alpha length → ⊥)
            (λ c. (c.field.now ≡ field.now) × (c.alpha ≡ alpha) × (c.length ≡ length)) }
    {
        if generates(field, alpha, length) {
            Some(Code {
                field,
                alpha,
                length,
            })
        } else {
            None
        }
    }

    // The points at which the sums of a code word are zero.
    pub fn points(&self) -> Points<F::Elem>
        ensures value { let o = F.Field.ops self.now.field.now in
            let α = self.now.alpha in
            result ≡ record {
              first = power o α 1;
              second = power o α 2;
              third = power o α 3;
              fourth = power o α 4;
            } }
        ensures inside { let o = F.Field.ops self.now.field.now in
            In o result.first × In o result.second × In o result.third × In o result.fourth }
    {
        let second = self.field.mul(self.alpha, self.alpha);
        let third = self.field.mul(self.alpha, second);
        Points {
            first: self.alpha,
            second,
            third,
            fourth: self.field.mul(self.alpha, third),
        }
    }

    // Refuses a block of another length, and one of whose first `count` symbols is no element.
    pub fn check_shape(&self, block: &[F::Elem], count: usize) -> Result<(), CodeFault>
        requires { count ≤ self.now.length }
        ensures { let o = F.Field.ops self.now.field.now in
            MatchResult result
            (λ _. (length block.now ≡ self.now.length) × Elements o (take count block.now))
            (Misshapen o self.now.length block.now (take count block.now)) }
    {
        if block.len() != self.length {
            return Err(CodeFault::Length(block.len()));
        }
        if let Some(place) = first_non_element(self.field, &block[..count]) {
            return Err(CodeFault::Symbol {
                place: self.length - count + place,
                fault: FieldFault::NotElement,
            });
        }
        Ok(())
    }
}
