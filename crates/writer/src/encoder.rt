// The writer itself.
ghost use Rattle.std.specs.Prelude.{◌≡◌, ◌≤◌, length, MatchResult};
ghost use Rattle.code.specs.Blocks.{Elements, data_of};
ghost use Rattle.writer.specs.Writing.{Written, Unwritten};

use crate::division::{Cubic, Divisor};
use algebra::Field;
use code::{Code, CodeFault};

// The symbols at the end of a block that the writer sets.
const CHECKS: usize = 4;

// Sets the last four symbols so that the block is a code word.
// The block is lent for writing, so no type can keep what is asked of it here.
fn write_checks<F: Field>(code: &Code<'_, F>, block: &mut [F::Elem])
    requires room { 5 ≤ code.now.length }
    requires long { length block.old ≡ code.now.length }
    requires elements { Elements (F.Field.ops code.now.field.now) (data_of code.now.length block.old) }
    ensures { let o = F.Field.ops code.now.field.now in
        Written o code.now.alpha code.now.length block.old block.new }
{
    let field = code.field;
    let first = code.length - CHECKS;
    let rest = Divisor::generator(code).remainder(&block[..first]);
    let Cubic { c3, c2, c1, c0 } = rest;
    block[first] = field.neg(c3);
    block[first + 1] = field.neg(c2);
    block[first + 2] = field.neg(c1);
    block[first + 3] = field.neg(c0);
}

// Writes the checks of a block after its data symbols.
// A code may be shorter than a block with data and checks, since the corrector works at any length: so the length is asked for.
pub fn encode<F: Field>(code: &Code<'_, F>, block: &mut [F::Elem]) -> Result<(), CodeFault>
    requires { 5 ≤ code.now.length }
    ensures { let o = F.Field.ops code.now.field.now in
        MatchResult result
        (λ _. Written o code.now.alpha code.now.length block.old block.new)
        (Unwritten o code.now.length block.old block.new) }
{
    code.check_shape(block, code.length - CHECKS)?;
    write_checks(code, block);
    Ok(())
}
