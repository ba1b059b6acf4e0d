// How far a sealed unit has come.
ghost use Rattle.std.specs.Prelude.{◌≡◌, ◌*◌, ◌<◌, ◌≤◌};
ghost use Rattle.unit.specs.declared.states.State.{State};
ghost use Rattle.unit.specs.declared.states.State.TheVariants.{Loading, Ready};

use crate::states::State;

// The state and, since the last accepted opening, the blocks that it named, the blocks taken and the symbols changed:
// all zero before any. It has the fields of a report, and what the orders keep true of them:
// a report, which anyone may build, is asked for none of it, so they are two types.
#[derive(Clone, Copy)]
pub struct Progress {
    pub(crate) state: State,
    pub(crate) named: u32,
    pub(crate) taken: u32,
    pub(crate) changed: u32,
    ghost most: { named ≤ 4096 },
    ghost below: { taken ≤ named },
    ghost few: { changed ≤ 2 * taken },
    ghost room: { state ≡ Loading → taken < named },
    ghost full: { state ≡ Ready → taken ≡ named },
}

impl Progress {
    ghost use Rattle.unit.specs.Orders.{AllowedCount, IsNew, Stands, Advances};

    // Newly sealed.
    pub(crate) fn parked() -> Progress
        ensures { IsNew result }
    {
        Progress {
            state: State::Parked,
            named: 0,
            taken: 0,
            changed: 0,
        }
    }

    // Opened for a number of blocks.
    pub(crate) fn opened(number: u32) -> Progress
        requires { AllowedCount number }
        ensures { Stands result Loading number 0 0 }
    {
        Progress {
            state: State::Loading,
            named: number,
            taken: 0,
            changed: 0,
        }
    }

    // Counts one more block, in which some symbols were changed. The last block that was named makes the unit ready.
    pub(crate) fn advance(&mut self, changed: u32)
        requires { (self.old.state ≡ Loading) × (changed ≤ 2) }
        ensures { Advances self.old self.new changed }
    {
        self.taken += 1;
        self.changed += changed;
        if self.taken == self.named {
            self.state = State::Ready;
        }
    }
}
