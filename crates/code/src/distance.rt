// The distance of the codes, as a theorem.
ghost use Rattle.code.specs.Distance.{DistanceFive};

use algebra::Field;

// In every field, different code words differ in at least five places.
pub fn distance_five<F: Field>(field: &F)
    ensures { DistanceFive (F.Field.ops field.now) }
{}
