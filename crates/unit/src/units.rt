// Open and sealed units: an open one still lacks its generator and block length, a sealed one keeps them.
ghost use Rattle.unit.specs.Sealing.{Allowed};

use crate::faults::UnitFault;
use crate::progress::Progress;
use algebra::{Field, RootedField};

// A unit on a field, before its generator and block length are fixed.
#[derive(Drop)]
pub struct Open<F: RootedField> {
    pub(crate) field: F,
}

// A unit that keeps the generator alpha and the length of its blocks, and takes orders.
#[derive(Drop)]
pub struct Sealed<F: RootedField> {
    pub(crate) field: F,
    pub(crate) alpha: F::Elem,
    pub(crate) length: usize,
    pub(crate) progress: Progress,
    ghost allowed: { Allowed (F.Field.ops field) alpha length },
}

// A refusal, with the open unit that it hands back. `Unextended` of `quadratic` is like it, and names a field instead.
#[derive(Drop)]
pub struct Rejected<F: RootedField> {
    pub fault: UnitFault,
    pub open: Open<F>,
}
