// The field's operations, those of arithmetic modulo its prime.
ghost use Rattle.prime_field.specs.Modular.{modular};
ghost use Rattle.prime_field.specs.Proofs.ModularLaws.{modular_laws};

use crate::PrimeField;
use algebra::Field;

impl Field for PrimeField {
    type Elem = u32;

    ghost ops = { λ f. modular f.modulus };

    ghost laws = { λ f. modular_laws f.modulus f.is_prime f.odd };

    fn contains(&self, a: u32) -> bool {
        a < self.modulus
    }

    fn equal(&self, a: u32, b: u32) -> bool {
        a == b
    }

    fn zero(&self) -> u32 {
        0
    }

    fn one(&self) -> u32 {
        1
    }

    fn add(&self, a: u32, b: u32) -> u32 {
        self.prime().sum(a, b)
    }

    fn mul(&self, a: u32, b: u32) -> u32 {
        self.prime().product(a, b)
    }

    fn neg(&self, a: u32) -> u32 {
        self.prime().negative(a)
    }

    fn inv(&self, a: u32) -> u32 {
        self.prime().pow(a, self.modulus - 2)
    }

    fn sign(&self, a: u32) -> u8 {
        // A remainder by 2 fits.
        (a % 2) as u8
    }
}
