// How the demand is met: from interception, then the upper zone, then the lower zone; a part of what is left goes on to groundwater.
ghost use Rattle.std.specs.Prelude.{◌≡◌, ◌+◌, ◌^◌, ◌≤◌};
ghost use Rattle.land.specs.Hour.{opportunity_of, drying_of, still};

use crate::water::{Drying, Zones};
use card::Card;
use figures::fraction::Fraction;
use figures::share::share;

// The most that the lower zone could give up in an hour anywhere on the segment.
#[tactic(auto, using(crate::proofs::Bounds::opportune))]
fn opportunity(card: &Card, lower: u64) -> u64
    requires { lower ≤ 100000000 }
    ensures value { result ≡ opportunity_of card.now lower }
{
    250_000 * 1_048_576 / (24 * (1_048_576 - card.lower_evapotranspiration())) * lower
        / card.lower_nominal()
}

// Each zone in its turn gives up what it can of the demand that is left.
pub(crate) fn dry(card: &Card, wet: Zones, demand: u64) -> Drying
    requires lower { wet.lower ≤ 100000000 }
    requires demand { demand ≤ 100000000 }
    ensures value { result ≡ drying_of card.now wet demand }
    ensures balance { still result.zones + result.evaporated ≡ still wet }
    ensures within { result.evaporated + result.demand ≤ demand }
{
    let first = wet.interception.min(demand);
    let second = wet.upper.min(demand - first);
    let left = demand - first - second;
    let asked = share(left as u32, opportunity(card, wet.lower));
    let third = wet.lower.min(u64::from(asked));
    let groundwater = Fraction {
        parts: card.groundwater_evapotranspiration(),
    };
    Drying {
        zones: Zones {
            interception: wet.interception - first,
            upper: wet.upper - second,
            lower: wet.lower - third,
        },
        evaporated: first + second + third,
        demand: groundwater.of(left - third),
    }
}
