// Blocks that are written and corrected with the generator 3 modulo 929, against values computed elsewhere.
use crate::agreement::Agreement;
use algebra::FieldFault;
use code::{Code, CodeFault};
use corrector::correct;
use prime_field::PrimeField;
use writer::encode;

pub const WORDS: [[u32; 5]; 2] = [[1, 809, 723, 568, 522], [2, 689, 517, 207, 115]];

// The block with its checks written anew; None where the data or the length are refused.
fn write<const N: usize>(field: &PrimeField, mut block: [u32; N]) -> Option<[u32; N]> {
    *block.last_chunk_mut::<4>()? = [0; 4];
    let code = Code::new(field, 3, N)?;
    if N < 5 {
        return None;
    }
    encode(&code, &mut block).ok()?;
    Some(block)
}

// How the block is corrected as one of n symbols, and what it is then; None where there is no code of that length.
fn mend<const N: usize>(
    field: &PrimeField,
    n: usize,
    mut block: [u32; N],
) -> Option<(Result<usize, CodeFault>, [u32; N])> {
    let code = Code::new(field, 3, n)?;
    let answer = correct(&code, &mut block);
    Some((answer, block))
}

pub fn written<const N: usize>(field: &PrimeField, words: &[[u32; N]]) -> Agreement {
    Agreement::of(words.iter(), |&&word| write(field, word) == Some(word))
}

pub fn corrected(field: &PrimeField) -> Agreement {
    let zeros = [0, 0, 0, 0, 0];
    let ones = [1, 1, 1, 1, 1];
    let word = [1, 809, 723, 568, 522];
    let outside = [1, 809, 929, 568, 522];
    let symbol = CodeFault::Symbol {
        place: 2,
        fault: FieldFault::NotElement,
    };
    let table = [
        (word, word, Ok(0)),
        ([1, 809, 0, 568, 522], word, Ok(1)),
        ([1, 809, 0, 568, 0], word, Ok(2)),
        ([1, 809, 0, 0, 0], zeros, Ok(2)),
        (ones, ones, Err(CodeFault::NoCodeWord)),
        (outside, outside, Err(symbol)),
    ];
    Agreement::of(table.into_iter(), |&(before, after, answer)| {
        mend(field, 5, before) == Some((answer, after))
    })
}

// Whether a block of another length is refused with it, and left as it was.
pub fn refuses_length(field: &PrimeField) -> bool {
    let block = [1, 809, 723, 568];
    mend(field, 5, block) == Some((Err(CodeFault::Length(4)), block))
}
