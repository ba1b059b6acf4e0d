// Fields that are made and refused, and roots in them.
ghost use Rattle.std.specs.Prelude.{◌≡◌, IfOk};

use crate::PrimeField;
use algebra::{FieldFault, RootedField};
use std::test::Fail;

fn field(modulus: u32, nonresidue: u32) -> Result<PrimeField, Fail>
    ensures { IfOk result (λ f. f.modulus ≡ modulus) }
{
    PrimeField::new(modulus, nonresidue).map_err(|_| Fail::new("no field"))
}

#[test]
fn small_roots(rt: HostRuntime) -> Result<(), Fail> {
    assert_eq!(rt; field(7, 3)?.root(2), Some(4));
    assert_eq!(rt; field(23, 5)?.root(2), Some(18));
    assert_eq!(rt; field(29, 2)?.root(5), Some(18));
    Ok(())
}

// 928 is 2^5 * 29, so roots take several rounds.
#[test]
fn rounds(rt: HostRuntime) -> Result<(), Fail> {
    let f = field(929, 3)?;
    assert_eq!(rt; f.root(928), Some(324));
    assert_eq!(rt; f.root(3), None);
    Ok(())
}

#[test]
fn makings(rt: HostRuntime) {
    assert_eq!(rt; PrimeField::new(2, 1), Err(FieldFault::UnlistedModulus));
    assert_eq!(rt; PrimeField::new(9, 2), Err(FieldFault::UnlistedModulus));
    assert_eq!(rt;
        PrimeField::new(4294967295, 2),
        Err(FieldFault::UnlistedModulus)
    );
    assert!(rt; PrimeField::new(3, 2).is_ok());
    assert!(rt; PrimeField::new(4294967291, 2).is_ok());
    assert_eq!(rt;
        PrimeField::new(4294967291, 4),
        Err(FieldFault::NotNonresidue)
    );
}
