// A working day of a unit with 929, the generator 3 and blocks of five symbols, against the answers that are due.
use crate::agreement::Agreement;
use crate::failures::Failure;
use algebra::FieldFault;
use code::CodeFault;
use prime_field::PrimeField;
use std::alloc::{AllocError, Global};
use unit::{Kind, Open, State, Task, UnitFault, work_day};

// An order with its block, the answer that is due, and the block that is to be left.
#[derive(Clone, Copy)]
struct Row {
    kind: Kind,
    number: u32,
    offered: [u32; 5],
    answer: Result<u32, UnitFault>,
    left: [u32; 5],
}

impl Row {
    // The order, yet to be answered.
    fn task(&self, heap: Global) -> Result<Task<u32>, AllocError> {
        Ok(Task {
            kind: self.kind,
            number: self.number,
            block: Vec::from_slice(heap, &self.offered)?,
            answer: None,
        })
    }

    // Whether the order is answered and leaves its block as is due.
    fn agrees(&self, task: &Task<u32>) -> bool {
        task.answer == Some(self.answer) && task.block.as_slice() == self.left.as_slice()
    }
}

const NONE: [u32; 5] = [0, 0, 0, 0, 0];

const WORD: [u32; 5] = [1, 809, 723, 568, 522];

const DAMAGED: [u32; 5] = [1, 809, 0, 568, 0];

const OUTSIDE: [u32; 5] = [1, 809, 929, 568, 522];

const ONES: [u32; 5] = [1, 1, 1, 1, 1];

// An order that leaves its block alone.
fn plain(kind: Kind, number: u32, answer: Result<u32, UnitFault>) -> Row {
    Row {
        kind,
        number,
        offered: NONE,
        answer,
        left: NONE,
    }
}

// A block that is refused.
fn spoilt(number: u32, offered: [u32; 5], fault: UnitFault) -> Row {
    Row {
        kind: Kind::Block,
        number,
        offered,
        answer: Err(fault),
        left: offered,
    }
}

fn refused_in(state: State) -> Result<u32, UnitFault> {
    Err(UnitFault::WrongState(state))
}

fn rows() -> [Row; 16] {
    let symbol = CodeFault::Symbol {
        place: 2,
        fault: FieldFault::NotElement,
    };
    let taken = Row {
        kind: Kind::Block,
        number: 0,
        offered: DAMAGED,
        answer: Ok(2),
        left: WORD,
    };
    [
        plain(Kind::Engage, 0, refused_in(State::Parked)),
        plain(Kind::Open, 0, Err(UnitFault::BlockCount(0))),
        plain(Kind::Open, 4097, Err(UnitFault::BlockCount(4097))),
        plain(Kind::Open, 4096, Ok(0)),
        plain(Kind::Open, 1, Ok(0)),
        plain(Kind::Engage, 0, refused_in(State::Loading)),
        spoilt(1, WORD, UnitFault::OutOfTurn(1)),
        spoilt(
            0,
            OUTSIDE,
            UnitFault::Block {
                number: 0,
                fault: symbol,
            },
        ),
        spoilt(
            0,
            ONES,
            UnitFault::Block {
                number: 0,
                fault: CodeFault::NoCodeWord,
            },
        ),
        taken,
        spoilt(1, WORD, UnitFault::WrongState(State::Ready)),
        plain(Kind::Engage, 0, Ok(0)),
        plain(Kind::Open, 1, refused_in(State::Steering)),
        plain(Kind::Release, 0, Ok(0)),
        plain(Kind::Release, 0, refused_in(State::Parked)),
        plain(Kind::Engage, 0, refused_in(State::Parked)),
    ]
}

// The orders of the day, given to one unit.
pub fn day(heap: Global, field: PrimeField) -> Result<Agreement, Failure> {
    let rows = rows();
    let mut tasks: Vec<Task<u32>> = rows.iter().map(|row| row.task(heap)).try_collect(heap)?;
    work_day(Open::new(field), 3, 5, tasks.as_mut_slice())?;
    let pairs = rows.iter().zip(tasks.iter());
    Ok(Agreement::of(pairs, |(row, task)| row.agrees(task)))
}
