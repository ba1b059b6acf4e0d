// Making open units, and sealing them.
ghost use Rattle.std.specs.Prelude.{◌≡◌, IfOk, MatchResult};
ghost use Rattle.unit.specs.Commissioning.{HandsBack, SealedWith, SealingRefused};
ghost use Rattle.unit.specs.Orders.{IsNew};

use crate::faults::UnitFault;
use crate::progress::Progress;
use crate::units::{Open, Rejected, Sealed};
use algebra::{Field, RootedField};
use code::generates;

// A block has four checks, and at least one symbol of data.
const SHORTEST_BLOCK: usize = 5;

const LONGEST_BLOCK: usize = 1024;

impl<F: RootedField> Open<F> {
    pub fn new(field: F) -> Open<F>
        ensures { result.field ≡ field }
    {
        Open { field }
    }

    // Fixes the generator and the block length. A refusal carries the open unit, unchanged.
    pub fn seal(self, alpha: F::Elem, length: usize) -> Result<Sealed<F>, Rejected<F>>
        ensures answer { MatchResult result
            (SealedWith self.field alpha length)
            (SealingRefused (F.Field.ops self.field) self alpha length) }
        ensures parked { IfOk result (λ u. IsNew u.progress) }
    {
        if !(SHORTEST_BLOCK..=LONGEST_BLOCK).contains(&length) {
            return Err(self.rejected(UnitFault::BlockLength));
        }
        if !generates(&self.field, alpha, length) {
            return Err(self.rejected(UnitFault::Generator));
        }
        let Open { field } = self;
        Ok(Sealed {
            field,
            alpha,
            length,
            progress: Progress::parked(),
        })
    }

    fn rejected(self, fault: UnitFault) -> Rejected<F>
        ensures { HandsBack fault self result }
    {
        Rejected { fault, open: self }
    }
}

impl<F: RootedField> Sealed<F> {
    // The field of the unit, for a root on its own.
    pub fn field(&self) -> &F
        ensures { result.now ≡ self.now.field }
    {
        &self.field
    }
}
