// Theorems: the worked values, and the signs in towers above prime fields.
ghost use Rattle.vectors.specs.Signs.{PrimeTowerSignsAreSgn0};
ghost use Rattle.vectors.specs.Values.{WorkedValuesHold};

// Each value of the list holds.
pub fn worked_values_hold()
    ensures { WorkedValuesHold }
{}

// In every tower above the numbers modulo p, the sign of an element is sgn0 of its coordinates.
pub fn prime_tower_signs_are_sgn0()
    ensures { PrimeTowerSignsAreSgn0 }
{}
