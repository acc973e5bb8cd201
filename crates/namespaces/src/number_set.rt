//! Sets of namespaces, by their numbers.

ghost use Rattle.std.specs.Prelude.{◌≡◌, ◌%◌, ◌↔◌, ◌⊎◌, IsTrue, ℕ, false};
ghost use Rattle.namespaces.specs.Numbers.{Has, half_of};

/// Namespaces by their numbers, of which there are 256. Contracts see which it has.
#[derive(Clone, Copy, Drop)]
pub struct Numbers {
    low: u128,
    high: u128,
}

impl Numbers {
    pub fn none() -> Numbers
        ensures { (n : ℕ) → Has result n → ⊥ }
    {
        Numbers { low: 0, high: 0 }
    }

    /// The half in which the bit of a number stands.
    fn half(self, number: u16) -> u128
        ensures { result ≡ half_of self number }
    {
        if number % 256 < 128 {
            self.low
        } else {
            self.high
        }
    }

    pub fn has(self, number: u16) -> bool
        ensures { IsTrue result ↔ Has self number }
    {
        (self.half(number) >> (number % 128)) & 1 == 1
    }

    /// These and one more.
    pub fn with(self, number: u16) -> Numbers
        ensures has { Has result number }
        ensures kept { (n : ℕ) → Has self n → Has result n }
        ensures only { (n : ℕ) → Has result n → Has self n ⊎ (n % 256 ≡ number % 256) }
    {
        let bit = 1u128 << (number % 128);
        if number % 256 < 128 {
            Numbers {
                low: self.low | bit,
                high: self.high,
            }
        } else {
            Numbers {
                low: self.low,
                high: self.high | bit,
            }
        }
    }

    /// Those of both.
    pub fn joined(self, other: Numbers) -> Numbers
        ensures { (n : ℕ) → Has result n ↔ (Has self n ⊎ Has other n) }
    {
        Numbers {
            low: self.low | other.low,
            high: self.high | other.high,
        }
    }

    /// Whether some namespace is in both.
    pub fn meets(self, other: Numbers) -> bool
        ensures { result ≡ false → (n : ℕ) → Has self n → Has other n → ⊥ }
    {
        self.low & other.low != 0 || self.high & other.high != 0
    }
}
