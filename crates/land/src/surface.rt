// Rain before it reaches the ground: impervious run-off, then interception.
ghost use Rattle.std.specs.Prelude.{◌≡◌, ◌+◌, ◌≤◌};
ghost use Rattle.land.specs.Hour.{surface_of};

use crate::water::Surface;
use card::Card;
use figures::fraction::Fraction;

// A part runs straight off; interception takes the rest up to its capacity; what remains is the supply to the ground.
pub(crate) fn reach_ground(card: &Card, interception: u64, rain: u64) -> Surface
    ensures value { result ≡ surface_of card.now interception rain }
    ensures balance { result.runoff + result.interception + result.supply ≡ interception + rain }
    ensures caught { interception ≤ result.interception }
{
    let impervious = Fraction {
        parts: card.impervious(),
    };
    let runoff = impervious.of(rain);
    let caught = (rain - runoff).min(card.interception_capacity().saturating_sub(interception));
    Surface {
        runoff,
        interception: interception + caught,
        supply: rain - runoff - caught,
    }
}
