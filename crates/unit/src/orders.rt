// The orders that a sealed unit is given.
ghost use Rattle.std.specs.Prelude.{MatchResult};
ghost use Rattle.unit.specs.Blocks.{CorrectedBy, UncorrectedBy};
ghost use Rattle.unit.specs.Days.{event};
ghost use Rattle.unit.specs.Law.{Ordered};
ghost use Rattle.unit.specs.Orders.{UncorrectedAt, OrderedOnce};

use crate::faults::UnitFault;
use crate::progress::Progress;
use crate::states::{Kind, State};
use crate::units::Sealed;
use algebra::{Field, RootedField};
use corrector::correct;

// The most blocks that an opening may name.
const MOST_BLOCKS: u32 = 4096;

impl<F: RootedField> Sealed<F> {
    // Gives the unit an order. An opening's number is that of the blocks it names, a block's is its own; others have none.
    // The block is lent: only a block order looks at it, and only one that is taken changes it.
    // What is not refused answers 0, and a block the number of symbols changed, as the definitions of their outcomes say.
    pub fn order(
        &mut self,
        kind: Kind,
        number: u32,
        block: &mut [F::Elem],
    ) -> Result<u32, UnitFault>
        ensures { Ordered self.old self.new (event kind number block.old block.new result) }
    {
        // What an order does is decided by its kind and the state together: one `match`, and no table of functions.
        match (kind, self.progress.state) {
            (Kind::Open, State::Steering) => Err(UnitFault::WrongState(State::Steering)),
            (Kind::Open, _) => match number {
                1..=MOST_BLOCKS => {
                    self.progress = Progress::opened(number);
                    Ok(0)
                }
                _ => Err(UnitFault::BlockCount(number)),
            },
            (Kind::Block, State::Loading) => {
                if number != self.progress.taken {
                    return Err(UnitFault::OutOfTurn(number));
                }
                let changed = self.correct_numbered(number, block)?;
                self.progress.advance(changed);
                Ok(changed)
            }
            (Kind::Engage, State::Ready) => {
                self.progress.state = State::Steering;
                Ok(0)
            }
            (Kind::Release, State::Steering) => {
                self.progress.state = State::Parked;
                Ok(0)
            }
            (_, state) => Err(UnitFault::WrongState(state)),
        }
    }

    // Corrects the block of a number, and adds the number to a refusal.
    fn correct_numbered(&self, number: u32, block: &mut [F::Elem]) -> Result<u32, UnitFault>
        ensures { MatchResult result
            (CorrectedBy self.now block.old block.new)
            (UncorrectedAt number (UncorrectedBy self.now block.old block.new)) }
    {
        let corrected = correct(&self.code(), block);
        let changed = corrected.map_err(|fault| UnitFault::Block { number, fault })?;
        // Two at the most, so the cast loses nothing.
        Ok(changed as u32)
    }
}

// Proves that an order has one outcome.
pub fn orders_have_one_outcome<F: Field>(field: &F)
    ensures { OrderedOnce (F.Field.ops field.now) }
{}
