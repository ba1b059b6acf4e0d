// Differences, quotients and determinants.
ghost use Rattle.std.specs.Prelude.{◌≡◌};
ghost use Rattle.algebra.specs.Operations.{In, minus};
ghost use Rattle.corrector.specs.Errors.{cross};

use algebra::Field;

pub fn subtract<F: Field>(field: &F, a: F::Elem, b: F::Elem) -> F::Elem
    requires { In (F.Field.ops field.now) a × In (F.Field.ops field.now) b }
    ensures value { result ≡ minus (F.Field.ops field.now) a b }
    ensures inside { In (F.Field.ops field.now) result }
{
    field.add(a, field.neg(b))
}

pub fn divide<F: Field>(field: &F, a: F::Elem, b: F::Elem) -> F::Elem
    requires { In (F.Field.ops field.now) a × In (F.Field.ops field.now) b }
    ensures value { let o = F.Field.ops field.now in result ≡ o.mul a (o.inv b) }
    ensures inside { In (F.Field.ops field.now) result }
{
    field.mul(a, field.inv(b))
}

// a·d - b·c
pub fn cross_difference<F: Field>(
    field: &F,
    a: F::Elem,
    b: F::Elem,
    c: F::Elem,
    d: F::Elem,
) -> F::Elem
    requires { let o = F.Field.ops field.now in In o a × In o b × In o c × In o d }
    ensures value { result ≡ cross (F.Field.ops field.now) a b c d }
    ensures inside { In (F.Field.ops field.now) result }
{
    subtract(field, field.mul(a, d), field.mul(b, c))
}
