// A river: a leak over two reaches with a delay behind them.
ghost use Rattle.std.specs.Prelude.{◌≡◌};
ghost use Rattle.refusals.specs.Limits.{Answers};
ghost use Rattle.storages.specs.Meaning.{step_limits};
ghost use Rattle.nesting.specs.Pumped.{Pumped};
ghost use Rattle.nesting.specs.River.{river_means, river_tap, river_limits, NewRiver};

use crate::pumped::hour_and_draw;
use delay::Delay;
use refusals::Refusal;
use storages::{Chain, Leak, Recession};

pub type River = Leak<Chain<Chain<Recession, Recession>, Delay>>;

// An empty river: two rates, the weights of the delay, the loss, and one ceiling for all of it.
pub fn new_river(
    upper: u64,
    lower: u64,
    weights: &[u64],
    loss: u64,
    ceiling: u64,
) -> Result<River, Refusal>
    ensures { Answers (river_limits upper lower weights.now loss ceiling) result (λ s. NewRiver upper lower weights.now loss ceiling s) (Unit {0}) }
{
    let above = Recession::new(upper, ceiling)?;
    let below = Recession::new(lower, ceiling)?;
    let behind = Delay::new(weights, ceiling)?;
    let reaches = Chain::new(above, below)?;
    let delayed = Chain::new(reaches, behind)?;
    Leak::new(loss, delayed)
}

// An hour of a river and then a draw, as of any tapped storage.
pub fn pump(river: &mut River, inflow: u64, amount: u64) -> Result<(u64, u64, u64), Refusal>
    ensures { Answers (step_limits (river_means.holds river.old) (river_means.limit river.old) inflow) result (λ o. Pumped river_means river_tap river.old inflow amount o river.new) (river.new ≡ river.old) }
{
    hour_and_draw(river, inflow, amount)
}
