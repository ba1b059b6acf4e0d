// A root on its own, in any rooted field, and that there is no other.
ghost use Rattle.algebra.specs.Refusals.{FindsRoot};
ghost use Rattle.algebra.specs.Roots.{RootsAreUnique};

use crate::faults::FieldFault;
use crate::{Field, RootedField};

// The root of a value that need not be an element.
pub fn find_root<F: RootedField>(field: &F, a: F::Elem) -> Result<F::Elem, FieldFault>
    ensures { FindsRoot (F.Field.ops field.now) a result }
{
    if !field.contains(a) {
        return Err(FieldFault::NotElement);
    }
    field.root(a).ok_or(FieldFault::NoRoot)
}

// An element has one root at most.
pub fn roots_are_unique<F: Field>(field: &F)
    ensures { RootsAreUnique (F.Field.ops field.now) }
{}
