// The corrector itself.
ghost use Rattle.std.specs.Prelude.{MatchResult};
ghost use Rattle.corrector.specs.Correction.{Corrected, Uncorrected};

use crate::decoder::Decoder;
use algebra::{Field, RootedField};
use code::{Code, CodeFault};

// Corrects a block that may have up to two wrong symbols, and says how many it changed.
pub fn correct<F: RootedField>(
    code: &Code<'_, F>,
    block: &mut [F::Elem],
) -> Result<usize, CodeFault>
    ensures { let o = F.Field.ops code.now.field.now in
        MatchResult result
        (Corrected o code.now.alpha code.now.length block.old block.new)
        (Uncorrected o code.now.alpha code.now.length block.old block.new) }
{
    code.check_shape(block, code.length)?;
    let decoder = Decoder::new(code, block);
    if decoder.all_zero() {
        return Ok(0);
    }
    let field = code.field;
    let determinant = decoder.determinant();
    if field.equal(determinant, field.zero()) {
        decoder.correct_one(block)
    } else {
        decoder.correct_two(block, determinant)
    }
}
