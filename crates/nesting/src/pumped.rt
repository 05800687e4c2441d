// An hour of any tapped channel, and then a draw from it.
ghost use Rattle.std.specs.Prelude.{◌≡◌};
ghost use Rattle.refusals.specs.Limits.{Answers};
ghost use Rattle.storages.specs.Meaning.{step_limits};
ghost use Rattle.nesting.specs.Pumped.{Pumped};

use refusals::Refusal;
use storages::{Storage, Tapped};

// Steps a channel without demand and draws as much of an amount as it then covers.
// Answers what flowed out, what went deep and what was drawn, or refuses as full.
pub fn hour_and_draw<C: Tapped>(
    channel: &mut C,
    inflow: u64,
    amount: u64,
) -> Result<(u64, u64, u64), Refusal>
    ensures { Answers (step_limits (C.Storage.holds channel.old) (C.Storage.limit channel.old) inflow) result (λ o. Pumped C.Storage C.Tapped.own channel.old inflow amount o channel.new) (channel.new ≡ channel.old) }
{
    let (release, _evaporated, deep) = channel.step(inflow, 0)?;
    let drawn = amount.min(channel.content());
    channel.draw(drawn)?;
    Ok((release, deep, drawn))
}
