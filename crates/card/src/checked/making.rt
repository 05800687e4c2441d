// The making of a checked card, from figures that are within their ranges.
ghost use Rattle.card.specs.Words.{words};
ghost use Rattle.card.specs.Cards.{Ranged, Holds};

use crate::checked::Card;

// The card of fourteen figures, in the order of the words.
pub(crate) fn card_of(figures: &[u64; 14]) -> Card
    requires { Ranged words 0 figures.now }
    ensures { Holds figures.now result }
{
    Card {
        area: figures[0],
        impv: figures[1],
        cepsc: figures[2],
        uzsn: figures[3],
        lzsn: figures[4],
        infilt: figures[5],
        intfw: figures[6],
        lzetp: figures[7],
        deepfr: figures[8],
        agwetp: figures[9],
        ovk: figures[10],
        ifwk: figures[11],
        gwk: figures[12],
        chk: figures[13],
    }
}
