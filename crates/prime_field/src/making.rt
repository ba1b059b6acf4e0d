// Making a field of a listed prime and a nonresidue.
ghost use Rattle.std.specs.Prelude.{◌≡◌, ◌*◌, ◌%◌, ◌^◌, ◌<◌, Decides, MatchResult};
ghost use Rattle.prime_field.specs.Making.{Listed, MadeOf, RefusesMaking};

use crate::PrimeField;
use crate::arithmetic::Modulus;
use algebra::FieldFault;

// Whether p is one of the moduli that a field is made of.
pub fn is_listed(p: u32) -> bool
    ensures { Decides result (Listed p) }
{
    matches!(p, 3 | 7 | 23 | 29 | 929 | 2013265921 | 4294967291)
}

// n as a power of two times an odd number: the exponent and the odd number.
#[tactic(auto, using(crate::proofs::Squaring::splits))]
fn split_twos(n: u32) -> (u32, u32)
    requires { 0 < n }
    ensures whole { n ≡ 2 ^ result.0 * result.1 }
    ensures odd { result.1 % 2 ≡ 1 }
{
    let exponent = n.trailing_zeros();
    (exponent, n >> exponent)
}

impl PrimeField {
    // The field of a listed modulus, with a number that has no root in it.
    pub fn new(modulus: u32, nonresidue: u32) -> Result<PrimeField, FieldFault>
        ensures { MatchResult result (MadeOf modulus nonresidue) (RefusesMaking modulus nonresidue) }
    {
        if !is_listed(modulus) {
            return Err(FieldFault::UnlistedModulus);
        }
        if nonresidue == 0 || nonresidue >= modulus {
            return Err(FieldFault::NotNonresidue);
        }
        let p = Modulus { value: modulus };
        let (exponent, cofactor) = split_twos(modulus - 1);
        let generator = p.pow(nonresidue, cofactor);
        // Euler's criterion: the power (modulus - 1) / 2 of a nonresidue is -1, and that of a residue is 1.
        if p.square_times(generator, exponent - 1) != modulus - 1 {
            return Err(FieldFault::NotNonresidue);
        }
        Ok(PrimeField {
            modulus,
            exponent,
            cofactor,
            generator,
        })
    }
}
