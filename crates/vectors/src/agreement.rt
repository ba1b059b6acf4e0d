// Rows of values that agree with what is executed.
ghost use Rattle.std.specs.Iterator.{IsFinite};

use std::fmt;

// How many rows agree, and how many there are.
#[derive(Clone, Copy)]
pub struct Agreement {
    agreeing: usize,
    rows: usize,
}

impl Agreement {
    // Tries each row.
    pub fn of<T: Drop, I: ExactSizeIterator<Item = T> + Drop, F: Fn(&T) -> bool>(
        rows: I,
        agrees: F,
    ) -> Agreement
        requires can { I.can_next rows }
        requires ends { IsFinite (I.remaining rows) }
        requires callable { F.IsAlwaysCallable agrees }
    {
        Agreement {
            rows: rows.len(),
            // A closure, as the check leaves a goal open at `filter(agrees)`.
            agreeing: rows.filter(|row| agrees(row)).count(),
        }
    }
}

impl fmt::Display for Agreement {
    fn fmt<W: fmt::Write>(&self, f: &mut fmt::Formatter<W>) -> fmt::Result {
        let Agreement { agreeing, rows } = self;
        write!(f, "{agreeing} of {rows} agree")
    }
}
