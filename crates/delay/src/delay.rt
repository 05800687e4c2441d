// A delay: a storage that hands an inflow on over the hours to come, by weights.
ghost use Rattle.std.specs.Prelude.{◌≡◌, ◌+◌, ◌≤◌, replicate, sum, slice_index};
ghost use Rattle.refusals.specs.Limits.{Answers};
ghost use Rattle.storages.specs.Meaning.{gone, top, whole};
ghost use Rattle.delay.specs.Hours.{longest, delay_limits, padded as padded_with, added, nearer, drained as drained_by};
ghost use Rattle.std.proofs.Common.{rules};

use crate::hours::{LONGEST, advanced, drained, padded, spread, total};
use refusals::Refusal;
use storages::{Storage, Tapped};

// Water by the hour in which it comes, hour 0 first.
#[derive(Drop)]
pub struct Delay {
    weights: [u64; LONGEST],
    hours: [u64; LONGEST],
    content: u64,
    ceiling: u64,
    ghost shares: { sum weights ≡ whole },
    ghost held: { sum hours ≡ content },
    ghost fits: { content ≤ ceiling },
    ghost small: { ceiling ≤ top },
}

impl Delay {
    // An empty delay of 1 to 24 weights that add up to 1,048,576.
    pub fn new(weights: &[u64], ceiling: u64) -> Result<Delay, Refusal>
        ensures { Answers (delay_limits weights.now ceiling) result (λ s. (s.weights ≡ padded_with weights.now) × (s.hours ≡ replicate longest 0) × (s.content ≡ 0) × (s.ceiling ≡ ceiling)) (Unit {0}) }
    {
        let few = weights.len() >= 1 && weights.len() <= LONGEST;
        if !few || total(weights) != 1_048_576 || ceiling > 8_000_000_000_000 {
            return Err(Refusal::StorageFigure);
        }
        Ok(Delay {
            weights: padded(weights),
            hours: [0; LONGEST],
            content: 0,
            ceiling,
        })
    }
}

impl Storage for Delay {
    ghost holds = { λ s. s.content };

    ghost limit = { λ s. s.ceiling };

    ghost steps = { λ s i d o t. (o ≡ (slice_index (added i s.weights s.hours) 0, 0, 0)) × (t.hours ≡ nearer (added i s.weights s.hours)) × (t.content + gone o ≡ s.content + i) × (t.weights ≡ s.weights) × (t.ceiling ≡ s.ceiling) };

    ghost within = { Prim.search rules };

    ghost bounded = { Prim.search rules };

    ghost stepped = { Prim.search rules };

    fn content(&self) -> u64 {
        self.content
    }

    fn ceiling(&self) -> u64 {
        self.ceiling
    }

    fn step(&mut self, inflow: u64, demand: u64) -> Result<(u64, u64, u64), Refusal> {
        if inflow > self.ceiling - self.content {
            return Err(Refusal::StorageFull(0));
        }
        let full = spread(self.hours, &self.weights, inflow);
        let release = full[0];
        self.hours = advanced(full);
        self.content = self.content + inflow - release;
        Ok((release, 0, 0))
    }
}

impl Tapped for Delay {
    ghost draws = { λ s n t. (t.hours ≡ drained_by n s.hours) × (t.content + n ≡ s.content) × (t.weights ≡ s.weights) × (t.ceiling ≡ s.ceiling) };

    ghost drawn = { Prim.search rules };

    fn draw(&mut self, amount: u64) -> Result<(), Refusal> {
        if amount > self.content {
            return Err(Refusal::DrawAmount);
        }
        self.hours = drained(self.hours, amount);
        self.content -= amount;
        Ok(())
    }
}
