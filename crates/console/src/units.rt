// Lines to a unit, once its steps are made: the same over every field.
ghost use Rattle.std.specs.Prelude.{IfOk};
ghost use Rattle.console.specs.Handling.{Finds, UnitAnswered};
ghost use Rattle.console.specs.Replies.{response};
ghost use Rattle.console.specs.declared.commissions.Commission.TheVariants as commissions;

use crate::commissions::Commission;
use crate::coordinates::Coordinates;
use crate::faults::ShiftFault;
use crate::inputs::NumberedLine;
use crate::replies::{Answer, Reply, unreadable};
use algebra::{Field, RootedField, find_root};
use lines::Line;
use std::alloc::{AllocError, Global};
use unit::{Open, Sealed};

// What comes of a line.
pub fn answer_unit<F: RootedField + Drop>(
    heap: Global,
    unit: Commission<F>,
    input: NumberedLine,
) -> Result<Answer<Commission<F>>, AllocError>
where
    F::Elem: Coordinates,
    ensures { IfOk result (UnitAnswered F.Elem.Coordinates.flat unit input) }
{
    match unit {
        Commission::Open(open) => Ok(answer_open(open, input)),
        Commission::Generator(open, alpha) => Ok(answer_generator(open, alpha, input)),
        Commission::Sealed(sealed) => answer_sealed(heap, sealed, input),
    }
}

fn answer_open<F: RootedField + Drop>(unit: Open<F>, input: NumberedLine) -> Answer<Commission<F>>
where
    F::Elem: Coordinates,
    ensures { UnitAnswered F.Elem.Coordinates.flat (commissions.Open unit) input result }
{
    let NumberedLine { number, line } = input;
    let Line::Alpha(numbers) = line else {
        return unreadable(Commission::Open(unit), number);
    };
    match F::Elem::from_numbers(numbers.as_slice()) {
        Some(alpha) => Answer {
            left: Commission::Generator(unit, alpha),
            reply: Ok(Reply::Alpha),
        },
        None => unreadable(Commission::Open(unit), number),
    }
}

fn answer_generator<F: RootedField + Drop>(
    unit: Open<F>,
    alpha: F::Elem,
    input: NumberedLine,
) -> Answer<Commission<F>>
where
    F::Elem: Coordinates,
    ensures { UnitAnswered F.Elem.Coordinates.flat (commissions.Generator unit alpha) input result }
{
    let NumberedLine { number, line } = input;
    let Line::Length(n) = line else {
        return unreadable(Commission::Generator(unit, alpha), number);
    };
    // A `usize` has 32 bits or more, so the cast loses nothing.
    match unit.seal(alpha, n as usize) {
        Ok(sealed) => Answer {
            left: Commission::Sealed(sealed),
            reply: Ok(Reply::Length),
        },
        Err(rejected) => Answer {
            left: Commission::Generator(rejected.open, alpha),
            reply: Err(ShiftFault::Unit(rejected.fault)),
        },
    }
}

fn answer_sealed<F: RootedField + Drop>(
    heap: Global,
    unit: Sealed<F>,
    input: NumberedLine,
) -> Result<Answer<Commission<F>>, AllocError>
where
    F::Elem: Coordinates,
    ensures { IfOk result (UnitAnswered F.Elem.Coordinates.flat (commissions.Sealed unit) input) }
{
    let NumberedLine { number, line } = input;
    let Line::Find(numbers) = line else {
        return Ok(unreadable(Commission::Sealed(unit), number));
    };
    let Some(x) = F::Elem::from_numbers(numbers.as_slice()) else {
        return Ok(unreadable(Commission::Sealed(unit), number));
    };
    let reply = answer_find(heap, unit.field(), x)?;
    Ok(Answer {
        left: Commission::Sealed(unit),
        reply,
    })
}

// The root of x, by its coordinates.
fn answer_find<F: RootedField>(
    heap: Global,
    field: &F,
    x: F::Elem,
) -> Result<Result<Reply, ShiftFault>, AllocError>
where
    F::Elem: Coordinates,
    ensures { IfOk result (λ reply. Finds (F.Field.ops field.now) F.Elem.Coordinates.flat x (response reply)) }
{
    match find_root(field, x) {
        Ok(root) => {
            let mut values = Vec::new(heap);
            root.put(&mut values)?;
            Ok(Ok(Reply::Find(values)))
        }
        Err(fault) => Ok(Err(ShiftFault::Field(fault))),
    }
}
