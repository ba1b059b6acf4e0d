// Square roots, by the algorithm of Tonelli and Shanks.
ghost use Rattle.std.specs.Prelude.{◌<◌, MatchOption};
ghost use Rattle.prime_field.specs.Exponents.{LeastExponent, NoExponent};
ghost use Rattle.prime_field.specs.Proofs.ModularLaws.{modular_rooted};

use crate::PrimeField;
use crate::arithmetic::Modulus;
use algebra::{Field, RootedField};

impl Modulus {
    // The least i from 1 to m - 1 such that b squared i times is 1, found by i squarings; None, after m - 1, where there is none.
    #[tactic(auto, using(crate::proofs::Squaring::searches))]
    fn least_exponent(self, b: u32, m: u32) -> Option<u32>
        requires { b < self.value }
        ensures { MatchOption result (NoExponent self.value b m) (LeastExponent self.value b m) }
    {
        let mut e = b;
        let mut j = 1;
        // By a rule of the project a search is a loop that yields its answer by `break`.
        loop {
            if j >= m {
                break None;
            }
            e = self.product(e, e);
            if e == 1 {
                break Some(j);
            }
            j += 1;
        }
    }
}

impl RootedField for PrimeField {
    ghost rooted = { λ f. modular_rooted f.modulus f.is_prime f.odd };

    #[tactic(auto, using(crate::proofs::Rounds::round_none))]
    fn root(&self, a: u32) -> Option<u32> {
        if a == 0 {
            return Some(0);
        }
        let p = self.prime();
        let w = p.pow(a, (self.cofactor - 1) / 2);
        // x squared is a times b, and b has an order below that of c, 2^m, if a has a root.
        // Each round lowers the order of b, until b is 1.
        let mut x = p.product(a, w);
        let mut b = p.product(x, w);
        let mut c = self.generator;
        let mut m = self.exponent;
        while b != 1 {
            let i = p.least_exponent(b, m)?;
            let d = p.square_times(c, m - i - 1);
            x = p.product(x, d);
            c = p.product(d, d);
            b = p.product(b, c);
            m = i;
        }
        Some(if self.sign(x) == 0 { x } else { self.neg(x) })
    }
}
