// Numbers and lists of numbers, written and read.
ghost use Rattle.std.specs.Prelude.{◌≡◌, ℕ, List, ◌<◌, ◌⊎◌, ◌++◌, Some, length, IfOk, IfSome, vec_items, Decides, OnOk, slice_index};
ghost use Rattle.lines.specs.Numbers.{numeral, spelled, Fits32, NumberList, Reads};

use std::alloc::{AllocError, Global};
use std::fmt;
use std::fmt::{Display, Formatter};
use std::io::Write;
use std::str::from_utf8;

// Numbers that are shown with commas between them.
#[derive(Drop)]
pub struct Numbers<'a>(pub &'a [u32]);

impl Display for Numbers<'_> {
    ghost output = { λ numbers. Some (spelled numbers.0.now) };

    fn fmt<W: fmt::Write>(&self, f: &mut Formatter<W>) -> fmt::Result {
        let Some((first, others)) = self.0.split_first() else {
            return Ok(());
        };
        write!(f, "{first}")?;
        for v in others {
            write!(f, ",{v}")?;
        }
        Ok(())
    }
}

// Appends what the value shows, with no text made first. Each error is told as want of memory, the only one that a `Vec` has.
pub fn put<T: Display>(out: &mut Vec<u8>, value: &T) -> Result<(), AllocError>
    ensures { OnOk result (IfSome (T.output value.now) (λ text. out.new.items ≡ out.old.items ++ text)) }
{
    write!(out, "{value}").map_err(|_| AllocError)
}

// Appends the decimal digits of `v`.
pub fn put_number(out: &mut Vec<u8>, v: u32) -> Result<(), AllocError>
    ensures { OnOk result (out.new.items ≡ out.old.items ++ numeral v) }
{
    put(out, &v)
}

// Appends the numbers with commas between them.
pub fn put_numbers(out: &mut Vec<u8>, values: &[u32]) -> Result<(), AllocError>
    ensures { OnOk result (out.new.items ≡ out.old.items ++ spelled values.now) }
{
    put(out, &Numbers(values))
}

// Whether the text begins with a plus sign, or with a zero that something follows.
fn has_sign_or_leading_zero(text: &[u8]) -> bool
    ensures { Decides result ((slice_index text.now 0 ≡ 43) ⊎ ((slice_index text.now 0 ≡ 48) × (1 < length text.now))) }
{
    matches!(text, [b'+', ..] | [b'0', _, ..])
}

// The number that the text writes.
fn read_number(text: &[u8]) -> Option<u32>
    ensures { Reads numeral Fits32 (λ v. v) text.now result }
{
    // `parse` takes both.
    if has_sign_or_leading_zero(text) {
        return None;
    }
    from_utf8(text).ok()?.parse().ok()
}

// What a line may give after its key: a number, or the numbers of a list.
pub(crate) trait Value: Sized {
    // What a value means, which meanings are proper, and how one is written.
    ghost Meaning: { Type 0 };

    ghost meant: { Self → Meaning };

    ghost proper: { Meaning → Type 0 };

    ghost written: { Meaning → List ℕ };

    // The value that the text writes; None if it writes no proper one.
    fn read(heap: Global, text: &[u8]) -> Result<Option<Self>, AllocError>
        ensures { IfOk result (λ o. Reads written proper meant text.now o) };
}

impl Value for u32 {
    ghost Meaning = { ℕ };

    ghost meant = { λ v. v };

    ghost proper = { Fits32 };

    ghost written = { numeral };

    fn read(_heap: Global, text: &[u8]) -> Result<Option<u32>, AllocError> {
        Ok(read_number(text))
    }
}

impl Value for Vec<u32> {
    ghost Meaning = { List ℕ };

    ghost meant = { vec_items };

    ghost proper = { NumberList };

    ghost written = { spelled };

    fn read(heap: Global, text: &[u8]) -> Result<Option<Vec<u32>>, AllocError> {
        let mut values = Vec::new(heap);
        for part in text.split(|b| *b == b',') {
            let Some(v) = read_number(part) else {
                return Ok(None);
            };
            values.push(v)?;
        }
        Ok(Some(values))
    }
}

// The value after `key`.
pub(crate) fn value_after<V: Value>(
    heap: Global,
    key: &[u8],
    text: &[u8],
) -> Result<Option<V>, AllocError>
    ensures { IfOk result (λ o. Reads (λ x. key.now ++ V.written x) V.proper V.meant text.now o) }
{
    match text.strip_prefix(key) {
        Some(value) => V::read(heap, value),
        None => Ok(None),
    }
}
