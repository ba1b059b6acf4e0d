// What the program refuses.
use algebra::FieldFault;
use unit::UnitFault;

// Made by naming the variant: each is wrapped where a `match` also hands back what is left, and no `?` would use a `From`.
#[derive(Clone, Copy, PartialEq, Eq, Debug)]
pub enum ShiftFault {
    // A line that cannot be read, with its number, counted from 1.
    Unreadable(u64),
    Field(FieldFault),
    Unit(UnitFault),
}
