// Whole working days.
ghost use Rattle.std.specs.Prelude.{◌≡◌, MatchResult, OnOk};
ghost use Rattle.unit.specs.Commissioning.{SealingRefused};
ghost use Rattle.unit.specs.Law.{FieldLaw, BlockLaw, OrderLaw};
ghost use Rattle.unit.specs.Tasks.{Carried, ThroughoutDay, Worked};

use crate::tasks::Task;
use crate::units::{Open, Rejected, Sealed};
use algebra::{Field, RootedField};

impl<F: RootedField> Sealed<F> {
    // Gives the unit the order of each task, one after the other, and keeps the answers in the tasks.
    fn carry_out(&mut self, tasks: &mut [Task<F::Elem>])
        ensures { Carried self.old self.new tasks.old tasks.new }
    {
        for task in tasks.iter_mut() {
            task.answer = Some(self.order(task.kind, task.number, task.block.as_mut_slice()));
        }
    }
}

// Seals a unit and gives it the orders of a whole day. Where sealing is refused, nothing is done.
pub fn work_day<F: RootedField>(
    unit: Open<F>,
    alpha: F::Elem,
    length: usize,
    tasks: &mut [Task<F::Elem>],
) -> Result<Sealed<F>, Rejected<F>>
    ensures field { FieldLaw (F.Field.ops unit.field) }
    ensures blocks { OnOk result (ThroughoutDay (BlockLaw (F.Field.ops unit.field) alpha length) tasks.old tasks.new) }
    ensures orders { OnOk result (ThroughoutDay OrderLaw tasks.old tasks.new) }
    ensures tasks { MatchResult result
        (Worked unit.field alpha length tasks.old tasks.new)
        (λ e. SealingRefused (F.Field.ops unit.field) unit alpha length e × (tasks.new ≡ tasks.old)) }
{
    let mut sealed = unit.seal(alpha, length)?;
    sealed.carry_out(tasks);
    Ok(sealed)
}
