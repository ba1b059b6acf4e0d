// Places of a block: the one that a power of the generator stands for, and the correction of a symbol there.
ghost use Rattle.std.specs.Prelude.{◌≡◌, ℕ, ◌<◌, length, MatchOption, ◌≢◌};
ghost use Rattle.algebra.specs.Operations.{In};
ghost use Rattle.algebra.specs.Powers.{power};
ghost use Rattle.code.specs.Blocks.{Elements};
ghost use Rattle.corrector.specs.Errors.{FirstPlace, amended};

use crate::arithmetic::subtract;
use algebra::Field;
use code::Code;

// The first place of a block whose power of alpha is x.
pub fn find_place<F: Field>(code: &Code<'_, F>, x: F::Elem) -> Option<usize>
    requires { In (F.Field.ops code.now.field.now) x }
    ensures { let o = F.Field.ops code.now.field.now in
        MatchOption result
        ((k : ℕ) → k < code.now.length → power o code.now.alpha k ≢ x)
        (FirstPlace o code.now.alpha code.now.length x) }
{
    let field = code.field;
    let n = code.length;
    let mut k = 0;
    let mut locator = field.one();
    // By a rule of the project a search is a loop that yields its answer by `break`.
    loop {
        if k == n {
            break None;
        }
        if field.equal(locator, x) {
            break Some(k);
        }
        locator = field.mul(code.alpha, locator);
        k += 1;
    }
}

// Takes e from the symbol at the place k. The block is lent for writing, so no type can keep what is asked of it here.
pub fn amend<F: Field>(field: &F, block: &mut [F::Elem], k: usize, e: F::Elem)
    requires elements { Elements (F.Field.ops field.now) block.old }
    requires error { In (F.Field.ops field.now) e }
    requires below { k < length block.old }
    ensures { block.new ≡ amended (F.Field.ops field.now) block.old k e }
{
    let i = block.len() - 1 - k;
    block[i] = subtract(field, block[i], e);
}
