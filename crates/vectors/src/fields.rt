// Fields and roots in them, against values computed elsewhere. A refusal is known by its number.
// Rows give the modulus and the nonresidue, and no field: that it is made is tried as well.
use crate::agreement::Agreement;
use crate::failures::Failure;
use algebra::{FieldFault, find_root};
use prime_field::PrimeField;

// The answer of `find_root` in the field of p.
fn answer(p: u32, r: u32, a: u32) -> Result<u32, FieldFault> {
    let field = PrimeField::new(p, r)?;
    find_root(&field, a)
}

pub fn known_roots() -> Agreement {
    let table = [
        (7, 3, 2, Ok(4)),
        (23, 5, 2, Ok(18)),
        (29, 2, 5, Ok(18)),
        (929, 3, 928, Ok(324)),
        (929, 3, 3, Err(7)),
    ];
    Agreement::of(table.into_iter(), |&(p, r, a, due)| {
        answer(p, r, a).map_err(FieldFault::number) == due
    })
}

pub fn refused_makings() -> Agreement {
    let table = [
        (2, 1, 1),
        (9, 2, 1),
        (4294967295, 2, 1),
        (3, 4, 2),
        (4294967291, 4, 2),
        (929, 0, 2),
        (929, 929, 2),
    ];
    Agreement::of(table.into_iter(), |&(p, r, number)| {
        answer(p, r, 0).map_err(FieldFault::number) == Err(number)
    })
}

pub fn makings() -> Agreement {
    Agreement::of([3, 4294967291].into_iter(), |&p| answer(p, 2, 0) == Ok(0))
}

// Of the squares of 0 to 1999, how many have the even one of the two numbers as their root.
pub fn large_roots(p: u32, r: u32) -> Result<Agreement, Failure> {
    let field = PrimeField::new(p, r)?;
    Ok(Agreement::of(0..2000u16, |&n| {
        let x = u32::from(n);
        let even = if x % 2 == 0 { x } else { p.saturating_sub(x) };
        find_root(&field, x * x) == Ok(even)
    }))
}
