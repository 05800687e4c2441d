// Water drawn from a channel, until it is poured or booked.
ghost use Rattle.std.specs.Prelude.{◌≡◌};
ghost use Rattle.basin.specs.Law.{Booked};

// Drawn water. A parcel may be let go only when it is empty: pour it or book it first.
pub struct Parcel {
    pub(crate) amount: u64,
}

impl Drop for Parcel {
    fn drop(self)
        requires { self.amount ≡ 0 }
    {
        let Parcel { amount: _ } = self;
    }
}

impl Parcel {
    // How much water is in the parcel.
    pub fn amount(&self) -> u64
        ensures { result ≡ self.now.amount }
    {
        self.amount
    }

    // Books the parcel out: ends it, and answers its amount.
    pub fn book(self) -> u64
        ensures { Booked self result }
    {
        let Parcel { amount } = self;
        amount
    }
}
