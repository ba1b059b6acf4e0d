// How replies are written.
ghost use Rattle.std.specs.Prelude.{◌≡◌, ◌++◌, Some, OnOk};
ghost use Rattle.console.specs.Conversation.{shown};
ghost use Rattle.console.specs.Replies.{response, reply_text, fault_text};

use crate::faults::ShiftFault;
use crate::replies::Reply;
use lines::{Numbers, put};
use std::alloc::AllocError;
use std::fmt;
use std::fmt::{Display, Formatter};

impl Display for Reply {
    ghost output = { λ reply. Some (reply_text reply) };

    fn fmt<W: fmt::Write>(&self, f: &mut Formatter<W>) -> fmt::Result {
        match self {
            Reply::Prime => write!(f, "prime=ok"),
            Reply::Nonresidue => write!(f, "nonresidue=ok"),
            Reply::Step => write!(f, "step=ok"),
            Reply::Alpha => write!(f, "alpha=ok"),
            Reply::Length => write!(f, "length=ok"),
            Reply::Find(values) => {
                let root = Numbers(values.as_slice());
                write!(f, "find={root}")
            }
        }
    }
}

impl Display for ShiftFault {
    ghost output = { λ fault. Some (fault_text fault) };

    fn fmt<W: fmt::Write>(&self, f: &mut Formatter<W>) -> fmt::Result {
        let number = self.number();
        write!(f, "refused={number}")
    }
}

// Appends the reply with its end of line.
pub fn put_reply(out: &mut Vec<u8>, reply: &Result<Reply, ShiftFault>) -> Result<(), AllocError>
    ensures { OnOk result (out.new.items ≡ out.old.items ++ shown (response reply.now)) }
{
    match reply {
        Ok(reply) => put(out, reply)?,
        Err(fault) => put(out, fault)?,
    }
    out.extend_from_slice(b"\n")
}
