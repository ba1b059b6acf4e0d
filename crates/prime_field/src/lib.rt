// The field of an odd prime below 2^32, and its square roots.
#![tactic(auto)]

ghost use Rattle.std.specs.Prelude.{◌≡◌, ◌+◌, ◌-◌, ◌*◌, ◌%◌, ◌^◌, ◌<◌};
ghost use Rattle.prime_field.specs.Modular.{power};
ghost use Rattle.prime_field.specs.Primes.{Prime};

mod arithmetic;
mod making;
mod operations;
mod roots;
#[cfg(test)]
mod tests;

use arithmetic::Modulus;
pub use making::is_listed;

// The field of an odd prime, with what roots need:
// the modulus less one is 2^exponent times the odd cofactor, and the generator is a nonresidue to the power of the cofactor.
// The modulus stays a plain number, since that is what the crates above read; `prime` gives its arithmetic.
#[derive(Clone, Copy, PartialEq, Eq, Debug)]
pub struct PrimeField {
    modulus: u32,
    exponent: u32,
    cofactor: u32,
    generator: u32,
    ghost is_prime: { Prime modulus },
    ghost odd: { modulus % 2 ≡ 1 },
    ghost whole: { modulus ≡ 2 ^ exponent * cofactor + 1 },
    ghost rest: { cofactor % 2 ≡ 1 },
    ghost inside: { generator < modulus },
    // the generator has the order 2^exponent
    ghost order: { power modulus generator (2 ^ (exponent - 1)) ≡ modulus - 1 },
}

impl PrimeField {
    // The modulus, with its arithmetic.
    fn prime(&self) -> Modulus
        ensures { result.value ≡ self.now.modulus }
    {
        Modulus {
            value: self.modulus,
        }
    }
}
