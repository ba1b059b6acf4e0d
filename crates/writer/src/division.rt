// Division of the data by the polynomial whose roots are α to α⁴.
ghost use Rattle.std.specs.Prelude.{◌≡◌, ℕ, ◌+◌, ◌<◌};
ghost use Rattle.algebra.specs.Operations.{In};
ghost use Rattle.algebra.specs.Powers.{power};
ghost use Rattle.code.specs.Blocks.{Elements};
ghost use Rattle.writer.specs.Division.{Inside, Root, Steps, Remains};

use algebra::Field;
use code::{Code, Points};

// c3·x³ + c2·x² + c1·x + c0. Named fields and no array, as `Points` of `code`.
#[derive(Clone, Copy)]
pub struct Cubic<E> {
    pub c3: E,
    pub c2: E,
    pub c1: E,
    pub c0: E,
}

// A polynomial x⁴ - rest to divide by, over a field.
#[derive(Drop)]
pub struct Divisor<'a, F: Field> {
    field: &'a F,
    rest: Cubic<F::Elem>,
    ghost inside: { Inside (F.Field.ops field.now) rest },
}

impl<'a, F: Field> Divisor<'a, F> {
    // The generator polynomial of the code: (x - α)(x - α²)(x - α³)(x - α⁴).
    pub fn generator(code: &Code<'a, F>) -> Divisor<'a, F>
        ensures field { result.field.now ≡ code.now.field.now }
        ensures roots { let o = F.Field.ops code.now.field.now in
            (i : ℕ) → i < 4 → Root o result.rest (power o code.now.alpha (1 + i)) }
    {
        let field = code.field;
        let Points {
            first,
            second,
            third,
            fourth,
        } = code.points();
        // (x - α)(x - α²) = x² - p·x + α³ and (x - α³)(x - α⁴) = x² - q·x + r
        let p = field.add(first, second);
        let q = field.add(third, fourth);
        let r = field.mul(third, fourth);
        Divisor {
            field,
            rest: Cubic {
                c3: field.add(p, q),
                c2: field.neg(field.add(field.add(third, r), field.mul(p, q))),
                c1: field.add(field.mul(p, r), field.mul(third, q)),
                c0: field.neg(field.mul(third, r)),
            },
        }
    }

    // The remainder after one more symbol.
    fn step(&self, rest: Cubic<F::Elem>, symbol: F::Elem) -> Cubic<F::Elem>
        requires rest { Inside (F.Field.ops self.now.field.now) rest }
        requires member { In (F.Field.ops self.now.field.now) symbol }
        ensures value { Steps (F.Field.ops self.now.field.now) self.now.rest rest symbol result }
        ensures inside { Inside (F.Field.ops self.now.field.now) result }
    {
        let field = self.field;
        let lead = field.add(rest.c3, symbol);
        Cubic {
            c3: field.add(rest.c2, field.mul(lead, self.rest.c3)),
            c2: field.add(rest.c1, field.mul(lead, self.rest.c2)),
            c1: field.add(rest.c0, field.mul(lead, self.rest.c1)),
            c0: field.mul(lead, self.rest.c0),
        }
    }

    // The remainder of x⁴ times the data, a plain slice by a rule of the project, so its elements are asked for.
    pub fn remainder(&self, symbols: &[F::Elem]) -> Cubic<F::Elem>
        requires { Elements (F.Field.ops self.now.field.now) symbols.now }
        ensures value { Remains (F.Field.ops self.now.field.now) self.now.rest symbols.now result }
        ensures inside { Inside (F.Field.ops self.now.field.now) result }
    {
        let zero = self.field.zero();
        let mut rest = Cubic {
            c3: zero,
            c2: zero,
            c1: zero,
            c0: zero,
        };
        for symbol in symbols {
            rest = self.step(rest, *symbol);
        }
        rest
    }
}
