// One wrong symbol.
ghost use Rattle.std.specs.Prelude.{◌≡◌, length, MatchOption, MatchResult, ◌≢◌};
ghost use Rattle.code.specs.Blocks.{Elements};
ghost use Rattle.corrector.specs.Errors.{SumsOf, Ratio, Corrects, NotOne};

use crate::arithmetic::divide;
use crate::decoder::Decoder;
use crate::places::{amend, find_place};
use crate::syndromes::Syndromes;
use algebra::Field;
use code::CodeFault;

impl<F: Field> Decoder<'_, F> {
    // The ratio of each sum to the one before, if it is the same for all three.
    fn common_ratio(&self) -> Option<F::Elem>
        requires { self.now.sums.s1 ≢ (F.Field.ops self.now.code.now.field.now).zero }
        ensures { let o = F.Field.ops self.now.code.now.field.now in
            MatchOption result ((x : F.Elem) → Ratio o self.now.sums x → ⊥) (Ratio o self.now.sums) }
    {
        let field = self.code.field;
        let Syndromes { s1, s2, s3, s4 } = self.sums;
        let x = divide(field, s2, s1);
        if field.equal(s3, field.mul(x, s2)) && field.equal(s4, field.mul(x, s3)) {
            Some(x)
        } else {
            None
        }
    }

    // Corrects one wrong symbol: at the place k it makes each sum αᵏ times the one before.
    // The block is lent for writing, so no type can keep what is asked of it here.
    pub fn correct_one(&self, block: &mut [F::Elem]) -> Result<usize, CodeFault>
        requires long { length block.old ≡ self.now.code.now.length }
        requires elements { Elements (F.Field.ops self.now.code.now.field.now) block.old }
        requires sums { let o = F.Field.ops self.now.code.now.field.now in
            SumsOf o self.now.code.now.alpha block.old self.now.sums }
        ensures { let o = F.Field.ops self.now.code.now.field.now in
            let α = self.now.code.now.alpha in
            MatchResult result
            (Corrects o α block.old block.new)
            (NotOne o α self.now.sums block.old block.new) }
    {
        let field = self.code.field;
        let s1 = self.sums.s1;
        if field.equal(s1, field.zero()) {
            return Err(CodeFault::NoCodeWord);
        }
        // By a rule of the project what is not found is refused by `let .. else`.
        let Some(x) = self.common_ratio() else {
            return Err(CodeFault::NoCodeWord);
        };
        let Some(k) = find_place(self.code, x) else {
            return Err(CodeFault::NoCodeWord);
        };
        amend(field, block, k, divide(field, s1, x));
        Ok(1)
    }
}
