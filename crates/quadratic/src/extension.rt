// A quadratic extension, and when it is refused.
ghost use Rattle.std.specs.Prelude.{◌≡◌, MatchResult};
ghost use Rattle.quadratic.specs.Pairs.{Nonsquare};
ghost use Rattle.quadratic.specs.Refusals.{RefusesExtension};

use algebra::{Field, FieldFault, RootedField};

// The extension of `base` by the root of `beta`, which has none in `base`.
#[derive(Drop, PartialEq, Eq, Debug)]
pub struct Quad<F: RootedField> {
    pub(crate) base: F,
    pub(crate) beta: F::Elem,
    ghost nonsquare: { Nonsquare (F.Field.ops base) beta },
}

// An extension that was refused: why, and the field as it was.
#[derive(Drop, PartialEq, Eq, Debug)]
pub struct Unextended<F> {
    pub fault: FieldFault,
    pub base: F,
}

impl<F: RootedField> Quad<F> {
    pub fn new(base: F, beta: F::Elem) -> Result<Quad<F>, Unextended<F>>
        ensures { MatchResult result
            (λ q. Nonsquare (F.Field.ops base) beta × (q.base ≡ base) × (q.beta ≡ beta))
            (λ e. (e.base ≡ base) × RefusesExtension (F.Field.ops base) beta e.fault) }
    {
        if !base.contains(beta) || base.root(beta).is_some() {
            return Err(Unextended {
                fault: FieldFault::NotNonsquare,
                base,
            });
        }
        Ok(Quad { base, beta })
    }
}
