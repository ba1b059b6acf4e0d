// Elements as lists of numbers, low half first.
ghost use Rattle.std.specs.Prelude.{◌≡◌, ℕ, ◌*◌, List, [], ◌∷◌, ◌++◌, length, MatchOption, OnOk, ◌≢◌, refl};
ghost use Rattle.console.specs.Widths.{halves_long};

use std::alloc::AllocError;

// A trait of its own, since `TryFrom` for numbers and pairs is not ours to write.
pub trait Coordinates: Copy {
    ghost flat: { Self → List ℕ };

    // how many numbers an element has
    ghost width: { ℕ };

    // The element with these coordinates, if they are as many as an element has.
    fn from_numbers(numbers: &[u32]) -> Option<Self>
    where
        Self: Sized,
        ensures { MatchOption result (length numbers.now ≢ width) (λ x. numbers.now ≡ flat x) };

    // Appends the coordinates.
    fn put(self, out: &mut Vec<u32>) -> Result<(), AllocError>
        ensures { OnOk result (out.new.items ≡ out.old.items ++ flat self) };

    ghost long: { (x : Self) → length (flat x) ≡ width };
}

impl Coordinates for u32 {
    ghost flat = { λ n. n ∷ [] };

    ghost width = { 1 };

    ghost long = { λ n. refl };

    fn from_numbers(numbers: &[u32]) -> Option<u32> {
        match numbers {
            [n] => Some(*n),
            _ => None,
        }
    }

    fn put(self, out: &mut Vec<u32>) -> Result<(), AllocError> {
        out.push(self)?;
        Ok(())
    }
}

impl<E: Coordinates> Coordinates for (E, E) {
    ghost flat = { λ p. E.Coordinates.flat p.0 ++ E.Coordinates.flat p.1 };

    ghost width = { 2 * E.Coordinates.width };

    ghost long = { λ p. halves_long E.Coordinates.width (E.Coordinates.flat p.0) (E.Coordinates.flat p.1) (E.Coordinates.long p.0) (E.Coordinates.long p.1) };

    fn from_numbers(numbers: &[u32]) -> Option<(E, E)> {
        let (low, high) = numbers.split_at(numbers.len() / 2);
        Some((E::from_numbers(low)?, E::from_numbers(high)?))
    }

    fn put(self, out: &mut Vec<u32>) -> Result<(), AllocError> {
        self.0.put(out)?;
        self.1.put(out)
    }
}
