// How the console program reads and writes its lines, as functions on bytes and values.
//
// A number is decimal, from 0 to 4294967295, with no sign and no leading zero. A field element is
// one number or more, separated by commas; how many it needs depends on the field, so the caller
// checks that. A line is `prime=N`, `nonresidue=N`, `step=E`, `alpha=E`, `length=N` or `find=E`, for a number
// N and an element E. Any other bytes are no line.
#![tactic(auto)]

ghost use Rattle.std.specs.Prelude.{◌≡◌, ◌∷◌, ◌++◌, IfOk, MatchOption};
ghost use Rattle.std.specs.Str.Iter.{LacksByte};
ghost use Rattle.lines.specs.Lines.{Proper, meant, written, WrittenOnce};
ghost use Rattle.lines.specs.Numbers.{Reads};

mod numbers;
#[cfg(test)]
mod tests;

use crate::numbers::value_after;
pub use crate::numbers::{Numbers, put, put_number, put_numbers};
use std::alloc::{AllocError, Global};

// The parts before and after the first `mark`, or None where there is no mark.
pub fn cut(text: &[u8], mark: u8) -> Option<(&[u8], &[u8])>
    ensures { MatchOption result
        (LacksByte mark text.now)
        (λ p. LacksByte mark p.0.now × (text.now ≡ p.0.now ++ mark ∷ p.1.now)) }
{
    let place = text.iter().position(|b| *b == mark)?;
    Some((&text[..place], &text[place + 1..]))
}

// A line of input. An element may still have too few or too many numbers for the field.
#[derive(Drop)]
pub enum Line {
    Prime(u32),
    Nonresidue(u32),
    Step(Vec<u32>),
    Alpha(Vec<u32>),
    Length(u32),
    Find(Vec<u32>),
}

// The line that the bytes write, without its end of line; None if they write no line.
pub fn read_line(heap: Global, bytes: &[u8]) -> Result<Option<Line>, AllocError>
    ensures { IfOk result (λ o. Reads written Proper meant bytes.now o) }
{
    let Some((lead, rest)) = bytes.split_first() else {
        return Ok(None);
    };
    // The keys differ in their first byte.
    let line = match *lead as char {
        'p' => value_after(heap, b"rime=", rest)?.map(Line::Prime),
        'n' => value_after(heap, b"onresidue=", rest)?.map(Line::Nonresidue),
        's' => value_after(heap, b"tep=", rest)?.map(Line::Step),
        'a' => value_after(heap, b"lpha=", rest)?.map(Line::Alpha),
        'l' => value_after(heap, b"ength=", rest)?.map(Line::Length),
        'f' => value_after(heap, b"ind=", rest)?.map(Line::Find),
        _ => None,
    };
    Ok(line)
}

// Proves that no two lines are written alike.
#[tactic(auto, using(crate::proofs::Once::written_once))]
pub fn lines_are_written_once()
    ensures { WrittenOnce }
{}
