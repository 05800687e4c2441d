// The hour on the land, part after part.
ghost use Rattle.std.specs.Prelude.{◌≡◌, ◌+◌, ◌≤◌};
ghost use Rattle.land.specs.Hour.{kept_of, Hour, still, sent};

use crate::division::divide;
use crate::evaporation::dry;
use crate::seepage::seep;
use crate::surface::reach_ground;
use crate::water::{Flows, Zones};
use card::Card;
use figures::curve::upper_zone_part;

// What the upper zone keeps of slope water, by its content as the hour began.
fn kept(card: &Card, upper: u64, slope: u64) -> u64
    ensures value { result ≡ kept_of card.now upper slope }
    ensures less { result ≤ slope }
{
    upper_zone_part(card.upper_nominal() as u32, upper).of(slope)
}

// What an hour's rain and demand make of the zones, and what leaves them.
pub(crate) fn flows(card: &Card, zones: Zones, rain: u64, demand: u64) -> Flows
    requires room { still zones + rain ≤ 100000000 }
    requires demand { demand ≤ 100000000 }
    ensures hour { Hour card.now zones rain demand result }
    ensures balance { still result.zones + sent result ≡ still zones + rain }
    ensures within { result.evaporated + result.demand ≤ demand }
{
    let surface = reach_ground(card, zones.interception, rain);
    let division = divide(card, zones.lower, surface.supply);
    let kept = kept(card, zones.upper, division.slope);
    let seepage = seep(card, zones.upper + kept, zones.lower, division.infiltration);
    let wet = Zones {
        interception: surface.interception,
        upper: seepage.upper,
        lower: seepage.lower,
    };
    let drying = dry(card, wet, demand);
    Flows {
        zones: drying.zones,
        runoff: surface.runoff,
        slope: division.slope - kept,
        interflow: division.interflow,
        groundwater: seepage.groundwater,
        evaporated: drying.evaporated,
        demand: drying.demand,
    }
}
