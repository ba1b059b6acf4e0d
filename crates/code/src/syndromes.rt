// The sums of a block.
ghost use Rattle.std.specs.Prelude.{◌≡◌, ℕ};
ghost use Rattle.algebra.specs.Operations.{In};
ghost use Rattle.algebra.specs.Powers.{power};
ghost use Rattle.code.specs.Blocks.{Elements, Sum};

use algebra::Field;

// The sum Sⱼ of the block where x is αʲ, by Horner's rule in sending order.
// By a rule of the project this is a `for` over a plain slice, so that its symbols are elements is asked for.
pub fn syndrome<F: Field>(field: &F, x: F::Elem, block: &[F::Elem]) -> F::Elem
    requires point { In (F.Field.ops field.now) x }
    requires elements { Elements (F.Field.ops field.now) block.now }
    ensures value { let o = F.Field.ops field.now in
        (α : F.Elem) (j : ℕ) → In o α → x ≡ power o α j → result ≡ Sum o α j block.now }
    ensures inside { In (F.Field.ops field.now) result }
{
    let mut sum = field.zero();
    for symbol in block {
        sum = field.add(field.mul(sum, x), *symbol);
    }
    sum
}
