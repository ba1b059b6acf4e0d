// What a line is answered with.
ghost use Rattle.std.specs.Prelude.{◌≡◌, Err};
ghost use Rattle.console.specs.declared.faults.ShiftFault.TheVariants.{Unreadable};

use crate::faults::ShiftFault;

// A line that is not refused: its key, and of `find` the numbers of the root.
#[derive(Drop)]
pub enum Reply {
    Prime,
    Nonresidue,
    Step,
    Alpha,
    Length,
    Find(Vec<u32>),
}

// The reply to a line, and what it leaves.
#[derive(Drop)]
pub struct Answer<S> {
    pub left: S,
    pub reply: Result<Reply, ShiftFault>,
}

// The reply to a line, and the input after it.
#[derive(Drop)]
pub struct Answered<'a> {
    pub reply: Result<Reply, ShiftFault>,
    pub rest: &'a [u8],
}

// A line that cannot be read here leaves everything as it was.
pub fn unreadable<S>(left: S, k: u64) -> Answer<S>
    ensures left { result.left ≡ left }
    ensures reply { result.reply ≡ Err (Unreadable k) }
{
    Answer {
        left,
        reply: Err(ShiftFault::Unreadable(k)),
    }
}

impl<S> Answer<S> {
    // The answer that leaves what f makes of this one's.
    pub(crate) fn map<T, F: FnOnce(S) -> T>(self, f: F) -> Answer<T>
        requires { F.pre f self.left }
        ensures left { F.post f self.left result.left }
        ensures reply { result.reply ≡ self.reply }
    {
        let Answer { left, reply } = self;
        Answer {
            left: f(left),
            reply,
        }
    }
}
