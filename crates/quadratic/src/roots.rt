// Roots in a quadratic extension, by at most three roots in the field below.
ghost use Rattle.std.specs.Prelude.{◌≡◌, MatchOption, ◌≢◌};
ghost use Rattle.algebra.specs.Operations.{In};
ghost use Rattle.algebra.specs.Roots.{AnswersRoot, RootOf, Square};
ghost use Rattle.quadratic.specs.Pairs.{HalfSum, norm};
ghost use Rattle.quadratic.specs.Proofs.PairRoots.{pair_rooted};

use crate::extension::Quad;
use algebra::{Field, RootedField};

impl<F: RootedField> RootedField for Quad<F> {
    ghost rooted = { λ q. pair_rooted (F.Field.laws q.base) q.beta q.nonsquare (F.RootedField.rooted q.base) };

    fn root(&self, a: Self::Elem) -> Option<Self::Elem> {
        let f = &self.base;
        if f.equal(a.1, f.zero()) {
            return self.root_of_low(a.0);
        }
        // the norm of a square is a square
        let d = f.root(self.norm(a))?;
        self.root_by_norm(a, d)
    }
}

impl<F: RootedField> Quad<F> {
    // The root of (a0, 0): a0 or a0/beta is a square below.
    fn root_of_low(&self, a0: F::Elem) -> Option<(F::Elem, F::Elem)>
        requires { In (F.Field.ops self.now.base) a0 }
        ensures { AnswersRoot (⟦<Quad<F> as Field>⟧.ops self.now) (a0, (F.Field.ops self.now.base).zero) result }
    {
        let f = &self.base;
        if let Some(r) = f.root(a0) {
            return Some((r, f.zero()));
        }
        let s = f.root(f.mul(a0, f.inv(self.beta)))?;
        Some((f.zero(), s))
    }

    // The root of a, where a1 is not zero and d is a root of the norm: (a0 + d)/2 or (a0 - d)/2 is a square below.
    fn root_by_norm(&self, a: (F::Elem, F::Elem), d: F::Elem) -> Option<(F::Elem, F::Elem)>
        requires element { In (⟦<Quad<F> as Field>⟧.ops self.now) a }
        requires high { a.1 ≢ (F.Field.ops self.now.base).zero }
        requires root { RootOf (F.Field.ops self.now.base) (norm (F.Field.ops self.now.base) self.now.beta a) d }
        ensures { AnswersRoot (⟦<Quad<F> as Field>⟧.ops self.now) a result }
    {
        let f = &self.base;
        let half = f.inv(f.add(f.one(), f.one()));
        if let Some(x) = self.root_by_half_sum(a, f.mul(f.add(a.0, d), half)) {
            return Some(x);
        }
        self.root_by_half_sum(a, f.mul(f.add(a.0, f.neg(d)), half))
    }

    // The root of a with the root x0 of the half sum t as first half; the second is then a1/(2·x0).
    fn root_by_half_sum(&self, a: (F::Elem, F::Elem), t: F::Elem) -> Option<(F::Elem, F::Elem)>
        requires element { In (⟦<Quad<F> as Field>⟧.ops self.now) a }
        requires high { a.1 ≢ (F.Field.ops self.now.base).zero }
        requires inside { In (F.Field.ops self.now.base) t }
        requires sum { HalfSum (F.Field.ops self.now.base) self.now.beta a t }
        ensures { MatchOption result
            (Square (F.Field.ops self.now.base) t → ⊥)
            (RootOf (⟦<Quad<F> as Field>⟧.ops self.now) a) }
    {
        let f = &self.base;
        let x0 = f.root(t)?;
        Some((x0, f.mul(a.1, f.inv(f.add(x0, x0)))))
    }
}
