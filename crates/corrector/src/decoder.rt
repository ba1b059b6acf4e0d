// What the corrector knows of a block: its code and its sums.
ghost use Rattle.std.specs.Prelude.{◌≡◌, Decides};
ghost use Rattle.algebra.specs.Operations.{In};
ghost use Rattle.code.specs.Blocks.{Elements};
ghost use Rattle.corrector.specs.Errors.{SumsOf, Inside, AllZero, det};

use crate::arithmetic::cross_difference;
use crate::syndromes::Syndromes;
use algebra::Field;
use code::{Code, Points, syndrome};

// A code, and the sums of a block that it is to decode.
#[derive(Drop)]
pub struct Decoder<'a, F: Field> {
    pub code: &'a Code<'a, F>,
    pub sums: Syndromes<F::Elem>,
    ghost inside: { Inside (F.Field.ops code.now.field.now) sums },
}

impl<'a, F: Field> Decoder<'a, F> {
    // The decoder of a block, whose sums it takes. A block is a plain slice, by a rule of the project, so its elements are asked for.
    pub fn new(code: &'a Code<'a, F>, block: &[F::Elem]) -> Decoder<'a, F>
        requires { Elements (F.Field.ops code.now.field.now) block.now }
        ensures code { result.code.now ≡ code.now }
        ensures sums { SumsOf (F.Field.ops code.now.field.now) code.now.alpha block.now result.sums }
    {
        let field = code.field;
        let Points {
            first,
            second,
            third,
            fourth,
        } = code.points();
        Decoder {
            code,
            sums: Syndromes {
                s1: syndrome(field, first, block),
                s2: syndrome(field, second, block),
                s3: syndrome(field, third, block),
                s4: syndrome(field, fourth, block),
            },
        }
    }

    // Whether the block is a code word, as far as its sums tell.
    pub fn all_zero(&self) -> bool
        ensures { Decides result (AllZero (F.Field.ops self.now.code.now.field.now) self.now.sums) }
    {
        let field = self.code.field;
        let zero = field.zero();
        let Syndromes { s1, s2, s3, s4 } = self.sums;
        field.equal(s1, zero)
            && field.equal(s2, zero)
            && field.equal(s3, zero)
            && field.equal(s4, zero)
    }

    // S₁S₃ - S₂²
    pub fn determinant(&self) -> F::Elem
        ensures value { result ≡ det (F.Field.ops self.now.code.now.field.now) self.now.sums }
        ensures inside { In (F.Field.ops self.now.code.now.field.now) result }
    {
        let Syndromes { s1, s2, s3, .. } = self.sums;
        cross_difference(self.code.field, s1, s2, s2, s3)
    }
}
