// Feeding a console: its input is cut into lines, and each is answered at its end.
ghost use Rattle.std.specs.Prelude.{◌≡◌, ◌≤◌, ℕ, List, [], ◌∷◌, ◌++◌, length, Decides, IfOk, MatchOption, OnOk};
ghost use Rattle.console.specs.Consoles.{AnswersHeld, AnswersOne, Holds, RefusesHeld, Waits, WritesLast, WritesOne, waiting};
ghost use Rattle.console.specs.Conversation.{Response, ends};
ghost use Rattle.console.specs.Replies.{response};
ghost use Rattle.console.specs.Sessions.{AnsweredOnce, Output, Responds, initial, line_after, longest};
ghost use Rattle.std.specs.Str.Iter.{LacksByte};

use crate::answers::answer_line;
use crate::console::Console;
use crate::faults::ShiftFault;
use crate::replies::{Answer, Answered, Reply};
use crate::stages::Stage;
use crate::writing::put_reply;
use lines::cut;
use std::alloc::{AllocError, Global};

const LONGEST: usize = 49152;

impl Console {
    pub fn new(heap: Global) -> Console
        ensures { waiting result ≡ initial }
    {
        Console {
            stage: Stage::Start,
            ended: false,
            lines: 0,
            held: Vec::new(heap),
        }
    }

    // Whether the session has ended, so that no further input matters.
    pub fn ended(&self) -> bool
        ensures { result ≡ (waiting self.now).ended }
    {
        self.ended
    }

    // Reads up to the end of one line, and answers it. Where no line ends in the piece, all of it is read.
    pub fn feed_line<'a>(&mut self, piece: &'a [u8]) -> Result<Option<Answered<'a>>, AllocError>
        ensures { IfOk result (λ o. MatchOption o
            (Waits (waiting self.old) piece.now (waiting self.new))
            (λ a. AnswersOne (waiting self.old) piece.now (response a.reply) (waiting self.new) a.rest.now)) }
    {
        if self.ended {
            return Ok(None);
        }
        let Some((front, rest)) = cut(piece, b'\n') else {
            if !self.has_room(piece) {
                return Ok(Some(Answered {
                    reply: self.refuse_held(),
                    rest: &piece[piece.len()..],
                }));
            }
            self.keep(piece)?;
            return Ok(None);
        };
        if !self.has_room(front) {
            return Ok(Some(Answered {
                reply: self.refuse_held(),
                rest,
            }));
        }
        self.keep(front)?;
        let reply = self.answer_held()?;
        Ok(Some(Answered { reply, rest }))
    }

    // The input is over: a line that has begun ends here.
    pub fn finish(mut self) -> Result<Option<Result<Reply, ShiftFault>>, AllocError>
        ensures { IfOk result (λ o. MatchOption o
            (Responds (waiting self) [] [])
            (λ reply. Responds (waiting self) [] (response reply ∷ []))) }
    {
        if self.ended || self.held.is_empty() {
            return Ok(None);
        }
        Ok(Some(self.answer_held()?))
    }

    // Whether a part of a line can be held too.
    fn has_room(&self, part: &[u8]) -> bool
        ensures { Decides result (length ((waiting self.now).held ++ part.now) ≤ longest) }
    {
        part.len() <= LONGEST - self.held.len()
    }

    // Holds a part of a line too.
    fn keep(&mut self, part: &[u8]) -> Result<(), AllocError>
        requires line { LacksByte 10 part.now }
        requires room { length ((waiting self.old).held ++ part.now) ≤ longest }
        ensures { OnOk result (Holds (waiting self.old) part.now (waiting self.new)) }
    {
        self.held.extend_from_slice(part)
    }

    // The number of the line that has ended.
    fn count_line(&mut self) -> u64
        ensures number { result ≡ line_after (waiting self.old).lines }
        ensures waiting { waiting self.new ≡ record (waiting self.old) { lines = result } }
    {
        self.lines = self.lines.saturating_add(1);
        self.lines
    }

    // Answers the line held, which has ended.
    fn answer_held(&mut self) -> Result<Result<Reply, ShiftFault>, AllocError>
        ensures { IfOk result (λ reply. AnswersHeld (waiting self.old) (waiting self.new) (response reply)) }
    {
        let number = self.count_line();
        let stage = std::mem::replace(&mut self.stage, Stage::Start);
        let answer = answer_line(*self.held.allocator(), stage, number, self.held.as_slice())?;
        self.held.clear();
        let Answer { left, reply } = answer;
        self.stage = left;
        self.ended = ends_session(&reply);
        Ok(reply)
    }

    // Refuses the line held as too long, which ends the session.
    fn refuse_held(&mut self) -> Result<Reply, ShiftFault>
        ensures { RefusesHeld (waiting self.old) (waiting self.new) (response result) }
    {
        self.ended = true;
        Err(ShiftFault::Unreadable(self.count_line()))
    }
}

// The refusals 1 to 5 and 14 end the session.
fn ends_session(reply: &Result<Reply, ShiftFault>) -> bool
    ensures { result ≡ ends (response reply.now) }
{
    match reply {
        Ok(_) => false,
        Err(fault) => {
            let number = fault.number();
            // By number, as the definition `ends` has it.
            number <= 5 || number == 14
        }
    }
}

impl Console {
    // Feeds a line, and writes the reply: the rest of the piece, where a line ended in it.
    pub fn write_line<'a>(
        &mut self,
        piece: &'a [u8],
        out: &mut Vec<u8>,
    ) -> Result<Option<&'a [u8]>, AllocError>
        ensures { IfOk result (λ o. MatchOption o
            (Waits (waiting self.old) piece.now (waiting self.new) × (out.new.items ≡ out.old.items))
            (λ rest. WritesOne (waiting self.old) piece.now (waiting self.new) rest.now out.old.items out.new.items)) }
    {
        let Some(answered) = self.feed_line(piece)? else {
            return Ok(None);
        };
        put_reply(out, &answered.reply)?;
        Ok(Some(answered.rest))
    }

    // Finishes, and writes the reply to a line that ends with the input.
    pub fn write_last(self, out: &mut Vec<u8>) -> Result<(), AllocError>
        ensures { OnOk result (WritesLast (waiting self) out.old.items out.new.items) }
    {
        let Some(reply) = self.finish()? else {
            return Ok(());
        };
        put_reply(out, &reply)?;
        Ok(())
    }
}

// The output of a whole input.
pub fn respond(heap: Global, input: &[u8]) -> Result<Vec<u8>, AllocError>
    ensures { IfOk result (λ v. Output input.now v.items) }
{
    let mut console = Console::new(heap);
    let mut out = Vec::new(heap);
    let mut rest = input;
    while let Some(more) = console.write_line(rest, &mut out)? {
        rest = more;
    }
    console.write_last(&mut out)?;
    Ok(out)
}

// An input has one output.
pub fn input_has_one_output()
    ensures { AnsweredOnce }
{}
