// Sealing at the limits of generators and lengths. A refusal is known by its number.
use crate::agreement::Agreement;
use prime_field::PrimeField;
use unit::{Open, Sealed, UnitFault};

// Seals a unit with the field of p, which is made here, as in `fields`.
fn seal(p: u32, r: u32, alpha: u32, length: usize) -> Result<Sealed<PrimeField>, UnitFault> {
    let field = PrimeField::new(p, r).map_err(UnitFault::Field)?;
    Open::new(field)
        .seal(alpha, length)
        .map_err(|rejected| rejected.fault)
}

pub fn sealings() -> Agreement {
    let table = [
        (29, 2, 2, 28, None),
        (29, 2, 2, 29, Some(5)),
        (929, 3, 3, 4, Some(4)),
        (929, 3, 3, 1025, Some(4)),
        (929, 3, 3, 5, None),
        (929, 3, 0, 5, Some(5)),
        (929, 3, 929, 5, Some(5)),
    ];
    Agreement::of(table.into_iter(), |&(p, r, alpha, length, due)| {
        seal(p, r, alpha, length).err().map(UnitFault::number) == due
    })
}
