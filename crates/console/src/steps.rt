// Lines to a unit that may still step up: a step, or a line as to any unit.
ghost use Rattle.std.specs.Prelude.{◌≡◌, IfOk};
ghost use Rattle.lines.specs.Lines.{step};
ghost use Rattle.console.specs.Conversation.{unsealed};
ghost use Rattle.console.specs.Replies.{response};
ghost use Rattle.console.specs.Stages.{position};
ghost use Rattle.console.specs.Steps.{StepAnswered, StepHandled, ground, place, placed};
ghost use Rattle.prime_field.specs.Modular.{modular};
ghost use Rattle.quadratic.specs.Pairs.{pairs};

use crate::commissions::Commission;
use crate::coordinates::Coordinates;
use crate::faults::ShiftFault;
use crate::inputs::NumberedLine;
use crate::replies::{Answer, Reply, unreadable};
use crate::stages::Stage;
use crate::units::answer_unit;
use algebra::{Field, RootedField};
use lines::Line;
use prime_field::PrimeField;
use quadratic::Quad;
use std::alloc::{AllocError, Global};
use unit::Open;

// What a line leaves of such a unit: the unit on the same field, or an open one on the extension.
#[derive(Drop)]
pub enum Stepped<F: RootedField> {
    Same(Commission<F>),
    Higher(Open<Quad<F>>),
}

// What comes of a line.
pub fn answer_steps<F: RootedField + Drop>(
    heap: Global,
    unit: Commission<F>,
    input: NumberedLine,
) -> Result<Answer<Stepped<F>>, AllocError>
where
    F::Elem: Coordinates,
    ensures { IfOk result (StepAnswered F.Elem.Coordinates.flat unit input) }
{
    let NumberedLine { number, line } = input;
    let Line::Step(numbers) = line else {
        let input = NumberedLine { number, line };
        // A closure, as in `answer_read`: the constructor itself was tried.
        return Ok(answer_unit(heap, unit, input)?.map(|left| Stepped::Same(left)));
    };
    let Commission::Open(open) = unit else {
        return Ok(unreadable(Stepped::Same(unit), number));
    };
    Ok(answer_step(open, number, numbers.as_slice()))
}

fn answer_step<F: RootedField + Drop>(
    unit: Open<F>,
    number: u64,
    numbers: &[u32],
) -> Answer<Stepped<F>>
where
    F::Elem: Coordinates,
    ensures handled { let o = F.Field.ops unit.field in
        StepHandled o F.Elem.Coordinates.flat unsealed number (step numbers.now) (place result.left) (response result.reply) }
    ensures field { ground result.left ≡ unit.field }
{
    let Some(beta) = F::Elem::from_numbers(numbers) else {
        return unreadable(Stepped::Same(Commission::Open(unit)), number);
    };
    match unit.step(beta) {
        Ok(higher) => Answer {
            left: Stepped::Higher(higher),
            reply: Ok(Reply::Step),
        },
        Err(rejected) => Answer {
            left: Stepped::Same(Commission::Open(rejected.open)),
            reply: Err(ShiftFault::Unit(rejected.fault)),
        },
    }
}

// A `From` for each height, as each names its own two stages. Made by functions passed in, they would be one:
// it was tried, and a bound cannot yet speak of a function of a unit on the extension of its parameter.
impl From<Stepped<PrimeField>> for Stage {
    ghost from_gives = { λ left stage.
        position stage ≡ placed 0 (modular (ground left).modulus) (place left) };

    fn from(left: Stepped<PrimeField>) -> Stage {
        match left {
            Stepped::Same(unit) => Stage::Single(unit),
            Stepped::Higher(open) => Stage::Double(Commission::Open(open)),
        }
    }
}

impl From<Stepped<Quad<PrimeField>>> for Stage {
    ghost from_gives = { λ left stage.
        position stage ≡ placed 1 (pairs (modular (ground left).base.modulus) (ground left).beta) (place left) };

    fn from(left: Stepped<Quad<PrimeField>>) -> Stage {
        match left {
            Stepped::Same(unit) => Stage::Double(unit),
            Stepped::Higher(open) => Stage::Quadruple(Commission::Open(open)),
        }
    }
}
