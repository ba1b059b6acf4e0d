// Identities of every field, as theorems.
ghost use Rattle.algebra.specs.Identities.{DifferenceOfSquares, PairsAssociate, DeterminantsOfTwoTerms};

use crate::Field;

// The identities that quadratic steps and the corrector rest on hold in every field.
pub fn ring_identities<F: Field>(field: &F)
    ensures squares { DifferenceOfSquares (F.Field.ops field.now) }
    ensures pairs { PairsAssociate (F.Field.ops field.now) }
    ensures determinants { DeterminantsOfTwoTerms (F.Field.ops field.now) }
{}
