// A fraction: a number of parts of 1,048,576, which is the whole.
ghost use Rattle.std.specs.Prelude.{◌≡◌, ℕ, ◌*◌, ◌/◌, ◌≤◌};

#[derive(Clone, Copy, PartialEq, Eq, Debug)]
pub struct Fraction {
    pub parts: u64,
    pub ghost most: { parts ≤ 1048576 },
}

impl Fraction {
    // This fraction of an amount, what is less than a unit dropped.
    pub fn of(self, amount: u64) -> u64
        ensures value { result ≡ self.parts * amount / 1048576 }
        ensures less { result ≤ amount }
    {
        (u128::from(self.parts) * u128::from(amount) / 1_048_576) as u64
    }
}
