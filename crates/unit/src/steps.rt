// Quadratic steps of an open unit.
ghost use Rattle.std.specs.Prelude.{MatchResult};
ghost use Rattle.unit.specs.Commissioning.{Reopened, Stepped, StepRefused};

use crate::faults::UnitFault;
use crate::units::{Open, Rejected};
use algebra::{Field, RootedField};
use quadratic::{Quad, Unextended};

// The field's refusal becomes the unit's, and the field goes back into an open unit.
impl<F: RootedField> From<Unextended<F>> for Rejected<F> {
    ghost from_gives = { Reopened };

    fn from(refusal: Unextended<F>) -> Rejected<F> {
        let Unextended { fault, base } = refusal;
        Rejected {
            fault: UnitFault::Field(fault),
            open: Open { field: base },
        }
    }
}

impl<F: RootedField> Open<F> {
    // The unit on the field with a square root of beta added. A refusal carries the open unit, unchanged.
    pub fn step(self, beta: F::Elem) -> Result<Open<Quad<F>>, Rejected<F>>
        ensures { MatchResult result (Stepped self beta) (StepRefused (F.Field.ops self.field) self beta) }
    {
        let Open { field } = self;
        let field = Quad::new(field, beta)?;
        Ok(Open { field })
    }
}
