// The report that ends a unit.
ghost use Rattle.std.specs.Prelude.{◌≡◌, List};
ghost use Rattle.unit.specs.Days.{Event};
ghost use Rattle.unit.specs.Law.{HasLived};
ghost use Rattle.unit.specs.Reports.{Reports, Told};

use crate::progress::Progress;
use crate::states::State;
use crate::units::Sealed;
use algebra::{Field, RootedField};

// The state and, since the last accepted opening, the blocks that it named, the blocks taken and the symbols changed:
// all zero before any.
#[derive(Clone, Copy, PartialEq, Eq, Debug)]
pub struct Report {
    pub state: State,
    pub named: u32,
    pub taken: u32,
    pub changed: u32,
}

impl From<Progress> for Report {
    ghost from_gives = { Told };

    fn from(progress: Progress) -> Report {
        Report {
            state: progress.state,
            named: progress.named,
            taken: progress.taken,
            changed: progress.changed,
        }
    }
}

impl<F: RootedField + Drop> Sealed<F> {
    // Ends the unit: there are no orders after its report.
    pub fn report(self) -> Report
        ensures state { result.state ≡ self.progress.state }
        ensures named { result.named ≡ self.progress.named }
        ensures taken { result.taken ≡ self.progress.taken }
        ensures changed { result.changed ≡ self.progress.changed }
        ensures day { (h : List (Event F.Elem)) → HasLived h self → Reports h result }
    {
        Report::from(self.progress)
    }
}
