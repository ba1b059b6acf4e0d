// What a session takes in.
use lines::Line;

// A line that was read, with its number in the input, counted from 1.
#[derive(Drop)]
pub struct NumberedLine {
    pub number: u64,
    pub line: Line,
}
