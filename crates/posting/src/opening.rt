// The basin of a parameter card: one plot of land over a recession channel, empty.
ghost use Rattle.std.specs.Prelude.{◌≡◌, IfOk};
ghost use Rattle.std.specs.Result.{result_err};
ghost use Rattle.basin.specs.Law.{New};
ghost use Rattle.basin.specs.Basins.{view};
ghost use Rattle.card.specs.Cards.{fault_of};
ghost use Rattle.posting.specs.Cards.{lands, plots, channels, Dry, Idle, Opened, OpenedBy};
ghost use Rattle.posting.specs.Feeds.{FeedLaw};

use banks::{Bank, Plot};
use basin::Basin;
use card::Card;
use land::Segment;
use refusals::Refusal;
use storages::{Leak, Recession, Slope};

// The land of a card: overland flow by a slope, interflow by a recession, groundwater by a recession under a leak.
pub type Land = Segment<Slope, Recession, Leak<Recession>>;

// The basin of a card.
pub type CardBasin = Basin<Plot<Land>, Recession>;

// Dry land by the figures of a card.
fn land_of(card: Card) -> Land
    ensures { Dry card result }
{
    let slope = Slope::new(card.overland_rate()).unwrap();
    let interflow = Recession::new(card.interflow_rate(), 100_000_000).unwrap();
    let groundwater = Recession::new(card.groundwater_rate(), 100_000_000).unwrap();
    let leak = Leak::new(card.deep_fraction(), groundwater).unwrap();
    Segment::new(card, slope, interflow, leak).unwrap()
}

// The basin of a checked card.
fn basin_of(card: Card) -> CardBasin
    ensures { Opened card result }
{
    let plot = Plot::new(land_of(card), card.area()).unwrap();
    let channel = Recession::new(card.channel_rate(), 8_000_000_000_000).unwrap();
    Basin::open(plot, channel).unwrap()
}

// Checks a card and opens its basin. Whatever feed is posted on it, the lines are those of a run of calls, and the law of the book holds of them.
pub fn open(bytes: &[u8]) -> Result<CardBasin, Refusal>
    ensures refusal { result_err result ≡ fault_of bytes.now }
    ensures opened { IfOk result (λ b. OpenedBy bytes.now b) }
    ensures law { IfOk result (λ b. FeedLaw (view plots channels b)) }
{
    let card = card::check(bytes)?;
    Ok(basin_of(card))
}
