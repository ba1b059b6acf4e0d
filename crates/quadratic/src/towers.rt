// Theorems on towers of quadratic extensions, of any height.
ghost use Rattle.quadratic.specs.Signs.{SignsByCoordinates, sgn0};
ghost use Rattle.quadratic.specs.Towers.{TowersKeepLaws};

use algebra::{Field, RootedField};

// Every tower above a rooted field keeps the field's laws, and decides which of its elements have a root.
pub fn tower_keeps_laws<F: RootedField>(field: &F)
    ensures { TowersKeepLaws (F.Field.ops field.now) }
{}

// In every tower above numbers the sign of an element is the sgn0 of its coordinates.
#[tactic(auto, using(crate::proofs::Heights::signs_are_sgn0))]
pub fn tower_signs_are_sgn0()
    ensures { SignsByCoordinates sgn0 }
{}
