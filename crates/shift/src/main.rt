// The program `shift`: reads lines from standard input, and writes the reply to each as it ends.
#![tactic(auto)]

use console::Console;
use std::io;
use std::io::{Read, Write};

const PIECE: usize = 4096;

fn main(rt: HostRuntime) -> io::Result<()> {
    let heap = rt.alloc();
    let mut input = rt.stdin();
    let mut output = rt.stdout();
    let mut console = Console::new(heap);
    let mut reply = Vec::new(heap);
    let mut piece = [0u8; PIECE];
    // Nothing says that an input ends, so the pieces are counted.
    for _ in 0..u64::MAX {
        let n = input.read(&mut piece)?;
        if n == 0 {
            break;
        }
        answer(&mut console, &piece[0..n], &mut reply, &mut output)?;
        if console.ended() {
            break;
        }
    }
    console.write_last(&mut reply)?;
    output.write_all(reply.as_slice())
}

// Answers the lines that end in the piece, each by a write of its own.
fn answer(
    console: &mut Console,
    piece: &[u8],
    reply: &mut Vec<u8>,
    output: &mut impl Write,
) -> io::Result<()> {
    let mut rest = piece;
    while let Some(more) = console.write_line(rest, reply)? {
        output.write_all(reply.as_slice())?;
        reply.clear();
        rest = more;
    }
    Ok(())
}
