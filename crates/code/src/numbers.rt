// The number and the layer of each refusal of a block: written case by case, so that each stands beside its name as in its definition.
ghost use Rattle.std.specs.Prelude.{◌≡◌};
ghost use Rattle.code.specs.Refusals.{code_number, code_layer};

use crate::faults::CodeFault;
use algebra::Layer;

impl CodeFault {
    pub fn number(self) -> u32
        ensures { result ≡ code_number self }
    {
        match self {
            CodeFault::Length(_) => 11,
            CodeFault::Symbol { .. } => 12,
            CodeFault::NoCodeWord => 13,
        }
    }

    pub fn layer(self) -> Layer
        ensures { result ≡ code_layer self }
    {
        match self {
            CodeFault::Length(_) | CodeFault::Symbol { .. } | CodeFault::NoCodeWord =>
                Layer::Corrector,
        }
    }
}
