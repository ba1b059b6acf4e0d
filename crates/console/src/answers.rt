// What comes of each line, stage by stage.
ghost use Rattle.std.specs.Prelude.{◌≡◌, IfOk};
ghost use Rattle.lines.specs.Lines.{meant};
ghost use Rattle.console.specs.Conversation.{begun, prime_given, Answers};
ghost use Rattle.console.specs.Handling.{Handled};
ghost use Rattle.console.specs.Replies.{response};
ghost use Rattle.console.specs.Stages.{position};

use crate::commissions::Commission;
use crate::faults::ShiftFault;
use crate::inputs::NumberedLine;
use crate::replies::{Answer, Reply, unreadable};
use crate::stages::Stage;
use crate::steps::answer_steps;
use crate::units::answer_unit;
use algebra::FieldFault;
use lines::{Line, read_line};
use prime_field::{PrimeField, is_listed};
use std::alloc::{AllocError, Global};
use unit::Open;

fn answer_start(input: NumberedLine) -> Answer<Stage>
    ensures { Handled begun input.number (meant input.line) (position result.left) (response result.reply) }
{
    let NumberedLine { number, line } = input;
    let Line::Prime(p) = line else {
        return unreadable(Stage::Start, number);
    };
    if !is_listed(p) {
        return Answer {
            left: Stage::Start,
            reply: Err(ShiftFault::Field(FieldFault::UnlistedModulus)),
        };
    }
    Answer {
        left: Stage::Prime(p),
        reply: Ok(Reply::Prime),
    }
}

fn answer_prime(p: u32, input: NumberedLine) -> Answer<Stage>
    ensures { Handled (prime_given p) input.number (meant input.line) (position result.left) (response result.reply) }
{
    let NumberedLine { number, line } = input;
    let Line::Nonresidue(r) = line else {
        return unreadable(Stage::Prime(p), number);
    };
    match PrimeField::new(p, r) {
        Ok(field) => Answer {
            left: Stage::Single(Commission::Open(Open::new(field))),
            reply: Ok(Reply::Nonresidue),
        },
        Err(fault) => Answer {
            left: Stage::Prime(p),
            reply: Err(ShiftFault::Field(fault)),
        },
    }
}

// What comes of a line.
fn answer_read(heap: Global, stage: Stage, input: NumberedLine) -> Result<Answer<Stage>, AllocError>
    ensures { IfOk result (λ a.
        Handled (position stage) input.number (meant input.line) (position a.left) (response a.reply)) }
{
    // A closure in the last arm: it was tried, and the check cannot yet take a constructor of such a type as a function.
    match stage {
        Stage::Start => Ok(answer_start(input)),
        Stage::Prime(p) => Ok(answer_prime(p, input)),
        Stage::Single(unit) => Ok(answer_steps(heap, unit, input)?.map(Stage::from)),
        Stage::Double(unit) => Ok(answer_steps(heap, unit, input)?.map(Stage::from)),
        Stage::Quadruple(unit) => {
            Ok(answer_unit(heap, unit, input)?.map(|left| Stage::Quadruple(left)))
        }
    }
}

// What comes of line number k, which has these bytes before its end.
pub fn answer_line(
    heap: Global,
    stage: Stage,
    k: u64,
    bytes: &[u8],
) -> Result<Answer<Stage>, AllocError>
    ensures { IfOk result (λ a. Answers (position stage) k bytes.now (position a.left) (response a.reply)) }
{
    match read_line(heap, bytes)? {
        Some(line) => answer_read(heap, stage, NumberedLine { number: k, line }),
        None => Ok(unreadable(stage, k)),
    }
}
