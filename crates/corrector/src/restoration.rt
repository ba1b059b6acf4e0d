// The round trip, as a theorem on the two calls: what is written comes back, up to two symbols damaged.
ghost use Rattle.std.specs.Prelude.{◌≡◌, ◌<◌, ◌≤◌, length, MatchResult};
ghost use Rattle.corrector.specs.RoundTrip.{damaged, Admissible, Restored};
ghost use Rattle.writer.specs.Writing.{Unwritten};

use crate::corrector::correct;
use algebra::{Field, RootedField};
use code::{Code, CodeFault};
use writer::encode;

// A symbol that comes in the place of the one sent.
#[derive(Clone, Copy)]
pub struct Damage<E> {
    pub place: usize,
    pub symbol: E,
}

fn inflict<E: Copy>(block: &mut [E], damage: Damage<E>)
    requires { damage.place < length block.old }
    ensures { block.new ≡ damaged block.old damage }
{
    let i = block.len() - 1 - damage.place;
    block[i] = damage.symbol;
}

// Writes a block, turns two of its symbols into the given ones, of which either may be the one sent, and corrects it.
// As `encode`, it asks for room for the checks.
pub fn round_trip<F: RootedField>(
    code: &Code<'_, F>,
    block: &mut [F::Elem],
    first: Damage<F::Elem>,
    second: Damage<F::Elem>,
) -> Result<usize, CodeFault>
    requires long { 5 ≤ code.now.length }
    requires first { Admissible (F.Field.ops code.now.field.now) code.now.length first }
    requires second { Admissible (F.Field.ops code.now.field.now) code.now.length second }
    ensures { let o = F.Field.ops code.now.field.now in
        MatchResult result
        (Restored o code.now.alpha code.now.length first second block.old block.new)
        (Unwritten o code.now.length block.old block.new) }
{
    encode(code, block)?;
    inflict(block, first);
    inflict(block, second);
    correct(code, block)
}
