// Which elements may generate a code.
ghost use Rattle.code.specs.Generator.{Generates};
ghost use Rattle.std.specs.Prelude.{Decides};

use algebra::Field;

// Whether alpha, which need not be an element, generates codes of blocks of n symbols.
pub fn generates<F: Field>(field: &F, alpha: F::Elem, n: usize) -> bool
    ensures { Decides result (Generates (F.Field.ops field.now) alpha n) }
{
    if !field.contains(alpha) {
        return false;
    }
    if field.equal(alpha, field.zero()) {
        return false;
    }
    let one = field.one();
    let mut power = alpha;
    for _k in 1..n {
        if field.equal(power, one) {
            return false;
        }
        power = field.mul(alpha, power);
    }
    true
}
