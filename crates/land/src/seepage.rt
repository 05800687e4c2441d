// How water sinks: percolation out of the upper zone, and the one division between groundwater and the lower zone.
ghost use Rattle.std.specs.Prelude.{◌≡◌, ◌+◌, ◌≤◌};
ghost use Rattle.land.specs.Hour.{percolation_of, seepage_of};

use crate::water::Seepage;
use card::Card;
use figures::curve::groundwater_part;

// What percolates where the upper zone is the wetter, by the cube of the difference.
#[tactic(auto, using(crate::proofs::Bounds::percolated))]
pub(crate) fn percolation(card: &Card, upper: u64, lower: u64) -> u64
    requires upper { upper ≤ 100000000 }
    requires lower { lower ≤ 100000000 }
    ensures value { result ≡ percolation_of card.now upper lower }
    ensures less { result ≤ upper }
{
    let excess = (1_024 * upper / card.upper_nominal())
        .saturating_sub(1_024 * lower / card.lower_nominal())
        .min(4_096);
    upper.min(
        card.infiltration() * card.upper_nominal() / 10_000_000 * (excess * excess * excess)
            / 1_073_741_824,
    )
}

// Of infiltration plus percolation a part goes to groundwater, and all the rest to the lower zone.
pub(crate) fn seep(card: &Card, upper: u64, lower: u64, infiltration: u64) -> Seepage
    requires { upper + lower + infiltration ≤ 100000000 }
    ensures value { result ≡ seepage_of card.now upper lower infiltration }
    ensures balance { result.upper + result.lower + result.groundwater ≡ upper + lower + infiltration }
{
    let percolated = percolation(card, upper, lower);
    let sinking = infiltration + percolated;
    let groundwater = groundwater_part(card.lower_nominal() as u32, lower).of(sinking);
    Seepage {
        upper: upper - percolated,
        lower: lower + (sinking - groundwater),
        groundwater,
    }
}
