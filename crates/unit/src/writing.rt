// Writing blocks with a sealed unit.
ghost use Rattle.std.specs.Prelude.{◌≡◌, MatchResult};
ghost use Rattle.unit.specs.Blocks.{WrittenBy, UnwrittenBy};

use crate::units::Sealed;
use algebra::{Field, RootedField};
use code::{Code, CodeFault};

impl<F: RootedField> Sealed<F> {
    // The code of the unit's blocks.
    pub(crate) fn code(&self) -> Code<'_, F>
        ensures field { result.field.now ≡ self.now.field }
        ensures generator { result.alpha ≡ self.now.alpha }
        ensures length { result.length ≡ self.now.length }
    {
        Code {
            field: &self.field,
            alpha: self.alpha,
            length: self.length,
        }
    }

    // Writes the checks of a block by the unit's generator and length. The unit stays as it is.
    pub fn encode(&self, block: &mut [F::Elem]) -> Result<(), CodeFault>
        ensures { MatchResult result
            (λ _. WrittenBy self.now block.old block.new)
            (UnwrittenBy self.now block.old block.new) }
    {
        writer::encode(&self.code(), block)
    }
}
