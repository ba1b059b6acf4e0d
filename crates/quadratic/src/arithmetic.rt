// The arithmetic of a quadratic extension, by halves in the field below.
ghost use Rattle.std.specs.Prelude.{◌≡◌};
ghost use Rattle.algebra.specs.Operations.{In};
ghost use Rattle.quadratic.specs.Pairs.{norm, pairs};
ghost use Rattle.quadratic.specs.Proofs.PairLaws.{pair_laws};

use crate::extension::Quad;
use algebra::{Field, RootedField};

impl<F: RootedField> Field for Quad<F> {
    // (a0, a1) is a0 + a1·y, where y² = beta. It is a plain pair, so what takes one asks that it is an element.
    type Elem = (F::Elem, F::Elem);

    ghost ops = { λ q. pairs (F.Field.ops q.base) q.beta };

    ghost laws = { λ q. pair_laws (F.Field.laws q.base) q.beta q.nonsquare };

    fn contains(&self, a: Self::Elem) -> bool {
        self.base.contains(a.0) && self.base.contains(a.1)
    }

    fn equal(&self, a: Self::Elem, b: Self::Elem) -> bool {
        self.base.equal(a.0, b.0) && self.base.equal(a.1, b.1)
    }

    fn zero(&self) -> Self::Elem {
        (self.base.zero(), self.base.zero())
    }

    fn one(&self) -> Self::Elem {
        (self.base.one(), self.base.zero())
    }

    fn add(&self, a: Self::Elem, b: Self::Elem) -> Self::Elem {
        (self.base.add(a.0, b.0), self.base.add(a.1, b.1))
    }

    fn mul(&self, a: Self::Elem, b: Self::Elem) -> Self::Elem {
        let f = &self.base;
        let low = f.add(f.mul(a.0, b.0), f.mul(self.beta, f.mul(a.1, b.1)));
        let high = f.add(f.mul(a.0, b.1), f.mul(a.1, b.0));
        (low, high)
    }

    fn neg(&self, a: Self::Elem) -> Self::Elem {
        (self.base.neg(a.0), self.base.neg(a.1))
    }

    // The conjugate a0 - a1·y over the norm: one inverse below.
    fn inv(&self, a: Self::Elem) -> Self::Elem {
        let f = &self.base;
        let over = f.inv(self.norm(a));
        (f.mul(a.0, over), f.mul(f.neg(a.1), over))
    }

    fn sign(&self, a: Self::Elem) -> u8 {
        if self.base.equal(a.0, self.base.zero()) {
            self.base.sign(a.1)
        } else {
            self.base.sign(a.0)
        }
    }
}

impl<F: RootedField> Quad<F> {
    // a0² - beta·a1²
    pub(crate) fn norm(&self, a: (F::Elem, F::Elem)) -> F::Elem
        requires { In (⟦<Quad<F> as Field>⟧.ops self.now) a }
        ensures value { result ≡ norm (F.Field.ops self.now.base) self.now.beta a }
        ensures inside { In (F.Field.ops self.now.base) result }
    {
        let f = &self.base;
        f.add(f.mul(a.0, a.0), f.neg(f.mul(self.beta, f.mul(a.1, a.1))))
    }
}
