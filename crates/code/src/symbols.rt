// The symbols of a block that are no elements.
ghost use Rattle.code.specs.Blocks.{Elements};
ghost use Rattle.code.specs.Refusals.{FirstNonElement};
ghost use Rattle.std.specs.Prelude.{length, MatchOption};

use algebra::Field;

// The place of the first symbol sent that is no element; absent exactly when all are.
pub fn first_non_element<F: Field>(field: &F, block: &[F::Elem]) -> Option<usize>
    ensures { let o = F.Field.ops field.now in
        MatchOption result (Elements o block.now) (FirstNonElement o (length block.now) block.now) }
{
    let index = block.iter().position(|symbol| !field.contains(*symbol))?;
    Some(block.len() - 1 - index)
}
