// The clerk's own tally: sums of the calls and their answers, kept without a look at the basin.
ghost use Rattle.std.specs.Prelude.{◌≡◌, ◌+◌, ◌<◌, ◌^◌, ◌↔◌, IfSome, IsSome};
ghost use Rattle.basin.specs.Law.{fresh};
ghost use Rattle.irrigation.specs.Tallies.{added_by, closed_by, Fits};

use basin::Sums;

// A call that was granted, with its answer: rain on so many acres, a turn, a draw, a pour.
#[derive(Clone, Copy)]
pub enum Granted {
    Rain {
        area: u64,
        depth: u64,
        runoff: u64,
        evaporated: u64,
        deep: u64,
    },
    Turn {
        streamflow: u64,
        deep: u64,
    },
    Draw(u64),
    Pour(u64),
}

// Sums over all calls, and since the last closing.
#[derive(Clone, Copy)]
pub struct Tally {
    pub whole: Sums,
    pub since: Sums,
}

impl Tally {
    // The tally of a basin that was opened with this much water.
    pub fn new(held: u64) -> Tally
        ensures { (result.whole ≡ fresh held) × (result.since ≡ fresh held) }
    {
        Tally {
            whole: Sums::fresh(held),
            since: Sums::fresh(held),
        }
    }

    // One granted call more. None where a sum grows too large.
    pub fn add(self, call: Granted) -> Option<Tally>
        ensures fits { IsSome result ↔ (Fits (added_by call self.whole) × Fits (added_by call self.since)) }
        ensures value { IfSome result (λ t. (t.whole ≡ added_by call self.whole) × (t.since ≡ added_by call self.since)) }
    {
        Some(Tally {
            whole: add(self.whole, call)?,
            since: add(self.since, call)?,
        })
    }

    // A closing: the sums since the last one begin anew with what they leave to be held. None where what came grows too large.
    pub fn close(self) -> Option<Tally>
        ensures fits { IsSome result ↔ (self.since.opening + self.since.rain + self.since.poured < 2 ^ 64) }
        ensures value { IfSome result (λ t. (t.whole ≡ self.whole) × (t.since ≡ closed_by self.since)) }
    {
        let Sums {
            opening,
            rain,
            streamflow,
            evaporated,
            deep,
            drawn,
            poured,
        } = self.since;
        let came = opening.checked_add(rain)?.checked_add(poured)?;
        let left = came
            .saturating_sub(streamflow)
            .saturating_sub(evaporated)
            .saturating_sub(deep)
            .saturating_sub(drawn);
        Some(Tally {
            whole: self.whole,
            since: Sums::fresh(left),
        })
    }
}

// A granted call, added to sums. None where one grows too large.
fn add(mut sums: Sums, call: Granted) -> Option<Sums>
    ensures fits { IsSome result ↔ Fits (added_by call sums) }
    ensures value { IfSome result (λ s. s ≡ added_by call sums) }
{
    match call {
        Granted::Rain {
            area,
            depth,
            evaporated,
            deep,
            ..
        } => {
            sums.rain = sums.rain.checked_add(depth.checked_mul(area)?)?;
            sums.evaporated = sums.evaporated.checked_add(evaporated)?;
            sums.deep = sums.deep.checked_add(deep)?;
        }
        Granted::Turn { streamflow, deep } => {
            sums.streamflow = sums.streamflow.checked_add(streamflow)?;
            sums.deep = sums.deep.checked_add(deep)?;
        }
        Granted::Draw(amount) => sums.drawn = sums.drawn.checked_add(amount)?,
        Granted::Pour(amount) => sums.poured = sums.poured.checked_add(amount)?,
    }
    Some(sums)
}
