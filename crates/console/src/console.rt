// A console: a session that takes its input in pieces of any size, and holds at most one line.
ghost use Rattle.console.specs.Sessions.{Held};

use crate::stages::Stage;

#[derive(Drop)]
pub struct Console {
    pub(crate) stage: Stage,
    // A flag: a session that is over still stands where its last line left it, so an Option of the stage would lose that.
    pub(crate) ended: bool,
    pub(crate) lines: u64,
    pub(crate) held: Vec<u8>,
    ghost line: { Held held.items },
}
