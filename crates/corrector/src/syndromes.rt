// The four sums of a block.

// Named fields and no array, as `Points` of `code`.
#[derive(Clone, Copy)]
pub struct Syndromes<E> {
    pub s1: E,
    pub s2: E,
    pub s3: E,
    pub s4: E,
}
