// How the ground divides its supply: infiltration, interflow and slope water.
ghost use Rattle.std.specs.Prelude.{◌≡◌, ◌+◌, ◌^◌, ◌≤◌};
ghost use Rattle.land.specs.Hour.{wetness_of, exponent_of, capacity_of, reach_of, division_of};

use crate::water::Division;
use card::Card;
use figures::power::power;
use figures::share::share;

// How wet the lower zone is: sixteenths of its nominal content, at most 32.
fn wetness(card: &Card, lower: u64) -> u8
    requires { lower ≤ 100000000 }
    ensures value { result ≡ wetness_of card.now lower }
    ensures most { result ≤ 32 }
{
    (16 * lower / card.lower_nominal()).min(32) as u8
}

// By how many sixteenths of a power of two the capacity to infiltrate has fallen.
fn exponent(wetness: u8) -> u8
    requires { wetness ≤ 32 }
    ensures value { result ≡ exponent_of wetness }
    ensures most { result ≤ 96 }
{
    if wetness <= 16 {
        4 * wetness
    } else {
        32 + 2 * wetness
    }
}

// The greatest capacity to infiltrate, and the greatest to infiltrate or pass to interflow.
#[tactic(auto, using(crate::proofs::Bounds::power_32, crate::proofs::Bounds::ratio_product, crate::proofs::Bounds::reaches_product, crate::proofs::Bounds::soaks_reaches))]
fn capacities(card: &Card, wetness: u8) -> (u64, u64)
    requires { wetness ≤ 32 }
    ensures soaks { result.0 ≡ capacity_of card.now wetness }
    ensures reaches { result.1 ≡ reach_of card.now wetness }
    ensures order { result.0 ≤ result.1 }
{
    let soaks = 32 * card.infiltration() * 65_536 / power(exponent(wetness));
    let reaches = card.interflow_ratio() * power(wetness) / 100 * soaks / 65_536;
    (soaks, reaches)
}

// Divides the supply by the lower zone as the hour began.
pub(crate) fn divide(card: &Card, lower: u64, supply: u64) -> Division
    requires lower { lower ≤ 100000000 }
    requires supply { supply ≤ 100000000 }
    ensures value { result ≡ division_of card.now lower supply }
    ensures balance { result.infiltration + result.interflow + result.slope ≡ supply }
{
    let (soaks, reaches) = capacities(card, wetness(card, lower));
    let infiltration = u64::from(share(supply as u32, soaks));
    let taken = u64::from(share(supply as u32, reaches));
    Division {
        infiltration,
        interflow: taken - infiltration,
        slope: supply - taken,
    }
}
