// The book: what a basin took in and gave up since it was begun.
ghost use Rattle.std.specs.Prelude.{◌≡◌, ℕ, ◌+◌, ◌^◌, ◌<◌};
ghost use Rattle.basin.specs.Law.{fresh, sums_of};

// The running sums of a book, in acre-microinches.
#[derive(Clone, Copy, PartialEq, Eq, Debug, Default)]
pub struct Sums {
    pub opening: u64,
    pub rain: u64,
    pub streamflow: u64,
    pub evaporated: u64,
    pub deep: u64,
    pub drawn: u64,
    pub poured: u64,
}

// A book: its sums, and the water held as it was read.
#[derive(Clone, Copy, PartialEq, Eq, Debug)]
pub struct Book {
    pub sums: Sums,
    pub held: u64,
}

impl Sums {
    // The sums of a book that begins with this much water.
    pub fn fresh(opening: u64) -> Sums
        ensures { result ≡ fresh opening }
    {
        Sums {
            opening,
            ..Sums::default()
        }
    }
}
