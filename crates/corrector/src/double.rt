// Two wrong symbols.
ghost use Rattle.std.specs.Prelude.{◌≡◌, length, MatchResult, ◌≢◌};
ghost use Rattle.algebra.specs.Operations.{In};
ghost use Rattle.code.specs.Blocks.{Elements};
ghost use Rattle.corrector.specs.Errors.{SumsOf, Corrects, NotTwo};
ghost use Rattle.corrector.specs.Errors.{Pair, NoPair, det, locator_sum, locator_product, magnitude};

use crate::arithmetic::{cross_difference, divide, subtract};
use crate::decoder::Decoder;
use crate::places::{amend, find_place};
use crate::syndromes::Syndromes;
use algebra::{Field, RootedField};
use code::CodeFault;

// The powers of the generator that two places stand for.
#[derive(Clone, Copy)]
pub struct Locators<E> {
    pub x: E,
    pub y: E,
}

// The two values with the sum u and the product v.
fn solve_quadratic<F: RootedField>(
    field: &F,
    u: F::Elem,
    v: F::Elem,
) -> Result<Locators<F::Elem>, CodeFault>
    requires sum { In (F.Field.ops field.now) u }
    requires product { In (F.Field.ops field.now) v }
    ensures { let o = F.Field.ops field.now in
        MatchResult result (λ p. Pair o u v p.x p.y) (NoPair o u v) }
{
    let twice = field.add(v, v);
    let discriminant = subtract(field, field.mul(u, u), field.add(twice, twice));
    // By a rule of the project what is not found is refused by `let .. else`: a root here, a place below.
    let Some(d) = field.root(discriminant) else {
        return Err(CodeFault::NoCodeWord);
    };
    let one = field.one();
    let half = field.inv(field.add(one, one));
    Ok(Locators {
        x: field.mul(field.add(u, d), half),
        y: field.mul(subtract(field, u, d), half),
    })
}

impl<F: RootedField> Decoder<'_, F> {
    // The locators of two wrong symbols, by their sum and their product.
    fn locators(&self, determinant: F::Elem) -> Result<Locators<F::Elem>, CodeFault>
        requires value { determinant ≡ det (F.Field.ops self.now.code.now.field.now) self.now.sums }
        requires inside { In (F.Field.ops self.now.code.now.field.now) determinant }
        ensures { let o = F.Field.ops self.now.code.now.field.now in
            let u = locator_sum o self.now.sums in
            let v = locator_product o self.now.sums in
            MatchResult result (λ p. Pair o u v p.x p.y) (NoPair o u v) }
    {
        let field = self.code.field;
        let Syndromes { s1, s2, s3, s4 } = self.sums;
        let inverse = field.inv(determinant);
        let u = field.mul(cross_difference(field, s1, s2, s3, s4), inverse);
        let v = field.mul(cross_difference(field, s2, s3, s3, s4), inverse);
        solve_quadratic(field, u, v)
    }

    // What is wrong at the place of x, beside a wrong symbol at that of y.
    fn error_magnitude(&self, x: F::Elem, y: F::Elem) -> F::Elem
        requires left { In (F.Field.ops self.now.code.now.field.now) x }
        requires right { In (F.Field.ops self.now.code.now.field.now) y }
        ensures value { result ≡ magnitude (F.Field.ops self.now.code.now.field.now) self.now.sums x y }
        ensures inside { In (F.Field.ops self.now.code.now.field.now) result }
    {
        let field = self.code.field;
        let Syndromes { s1, s2, .. } = self.sums;
        divide(
            field,
            subtract(field, s2, field.mul(y, s1)),
            field.mul(x, subtract(field, x, y)),
        )
    }

    // Corrects two wrong symbols. The block is lent for writing, so no type can keep what is asked of it here.
    pub fn correct_two(
        &self,
        block: &mut [F::Elem],
        determinant: F::Elem,
    ) -> Result<usize, CodeFault>
        requires long { length block.old ≡ self.now.code.now.length }
        requires elements { Elements (F.Field.ops self.now.code.now.field.now) block.old }
        requires sums { let o = F.Field.ops self.now.code.now.field.now in
            SumsOf o self.now.code.now.alpha block.old self.now.sums }
        requires value { determinant ≡ det (F.Field.ops self.now.code.now.field.now) self.now.sums }
        requires inside { In (F.Field.ops self.now.code.now.field.now) determinant }
        requires nonzero { determinant ≢ (F.Field.ops self.now.code.now.field.now).zero }
        ensures { let o = F.Field.ops self.now.code.now.field.now in
            let α = self.now.code.now.alpha in
            MatchResult result
            (Corrects o α block.old block.new)
            (NotTwo o α self.now.sums block.old block.new) }
    {
        let field = self.code.field;
        let Locators { x, y } = self.locators(determinant)?;
        if field.equal(x, y) {
            return Err(CodeFault::NoCodeWord);
        }
        let Some(i) = find_place(self.code, x) else {
            return Err(CodeFault::NoCodeWord);
        };
        let Some(k) = find_place(self.code, y) else {
            return Err(CodeFault::NoCodeWord);
        };
        amend(field, block, i, self.error_magnitude(x, y));
        amend(field, block, k, self.error_magnitude(y, x));
        Ok(2)
    }
}
