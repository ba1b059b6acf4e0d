// Arithmetic modulo a number of 32 bits.
ghost use Rattle.std.specs.Prelude.{◌≡◌, ◌+◌, ◌-◌, ◌*◌, ◌%◌, ◌^◌, ◌<◌};
ghost use Rattle.prime_field.specs.Modular.{power};

// What numbers are taken modulo. The numbers stay plain, and are asked to be below it where that matters.
#[derive(Clone, Copy)]
pub struct Modulus {
    pub(crate) value: u32,
    ghost above_one: { 1 < value },
}

// A remainder is below the modulus, so the casts back to 32 bits lose nothing.
impl Modulus {
    pub fn sum(self, a: u32, b: u32) -> u32
        ensures value { result ≡ (a + b) % self.value }
        ensures inside { result < self.value }
    {
        ((u64::from(a) + u64::from(b)) % u64::from(self.value)) as u32
    }

    pub fn product(self, a: u32, b: u32) -> u32
        ensures value { result ≡ (a * b) % self.value }
        ensures inside { result < self.value }
    {
        (u64::from(a) * u64::from(b) % u64::from(self.value)) as u32
    }

    pub fn negative(self, a: u32) -> u32
        requires { a < self.value }
        ensures value { result ≡ (self.value - a) % self.value }
        ensures inside { result < self.value }
    {
        if a == 0 { 0 } else { self.value - a }
    }

    // Squares for each binary digit of n, from the highest, and multiplies by a for each digit 1.
    #[tactic(auto, using(crate::proofs::Squaring::digits))]
    pub fn pow(self, a: u32, n: u32) -> u32
        ensures value { result ≡ power self.value a n }
        ensures inside { result < self.value }
    {
        let mut r = 1;
        for k in (0..u32::BITS - n.leading_zeros()).rev() {
            r = self.product(r, r);
            if (n >> k) % 2 == 1 {
                r = self.product(r, a);
            }
        }
        r
    }

    // Squares a k times.
    #[tactic(auto, using(crate::proofs::Squaring::squarings))]
    pub fn square_times(self, a: u32, k: u32) -> u32
        requires { a < self.value }
        ensures value { result ≡ power self.value a (2 ^ k) }
        ensures inside { result < self.value }
    {
        let mut r = a;
        for _ in 0..k {
            r = self.product(r, r);
        }
        r
    }
}
