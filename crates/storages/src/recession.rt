// A recession: a storage that lets go of a fixed part of what it holds each hour.
ghost use Rattle.std.specs.Prelude.{◌≡◌, ℕ, ◌+◌, ◌-◌, ◌*◌, ◌/◌, ◌<◌, ◌≤◌};
ghost use Rattle.refusals.specs.Limits.{Answers};
ghost use Rattle.storages.specs.Meaning.{Out, gone, top, whole, recession_limits, recedes};
ghost use Rattle.std.proofs.Common.{rules};

use crate::meaning::{Storage, Tapped};
use figures::fraction::Fraction;
use refusals::Refusal;

#[derive(Drop)]
pub struct Recession {
    rate: Fraction,
    content: u64,
    ceiling: u64,
    ghost some: { 1 ≤ rate.parts },
    ghost fits: { content ≤ ceiling },
    ghost small: { ceiling ≤ top },
}

impl Recession {
    // An empty recession that releases `rate` parts of 1,048,576 each hour.
    pub fn new(rate: u64, ceiling: u64) -> Result<Recession, Refusal>
        ensures { Answers (recession_limits rate ceiling) result (λ s. (s.rate.parts ≡ rate) × (s.content ≡ 0) × (s.ceiling ≡ ceiling)) (Unit {0}) }
    {
        if rate < 1 || rate > 1_048_576 || ceiling > 8_000_000_000_000 {
            return Err(Refusal::StorageFigure);
        }
        Ok(Recession {
            rate: Fraction { parts: rate },
            content: 0,
            ceiling,
        })
    }
}

impl Storage for Recession {
    ghost holds = { λ s. s.content };

    ghost limit = { λ s. s.ceiling };

    ghost steps = { λ s i d o t. (o ≡ recedes s.rate.parts (s.content + i) d) × (t.content + gone o ≡ s.content + i) × (t.rate ≡ s.rate) × (t.ceiling ≡ s.ceiling) };

    ghost within = { Prim.search rules };

    ghost bounded = { Prim.search rules };

    ghost stepped = { Prim.search rules };

    fn content(&self) -> u64 {
        self.content
    }

    fn ceiling(&self) -> u64 {
        self.ceiling
    }

    fn step(&mut self, inflow: u64, demand: u64) -> Result<(u64, u64, u64), Refusal> {
        if inflow > self.ceiling - self.content {
            return Err(Refusal::StorageFull(0));
        }
        let full = self.content + inflow;
        let evaporated = demand.min(full);
        let rest = full - evaporated;
        let release = self.rate.of(rest);
        self.content = rest - release;
        Ok((release, evaporated, 0))
    }
}

impl Tapped for Recession {
    ghost draws = { λ s n t. (t.content + n ≡ s.content) × (t.rate ≡ s.rate) × (t.ceiling ≡ s.ceiling) };

    ghost drawn = { Prim.search rules };

    fn draw(&mut self, amount: u64) -> Result<(), Refusal> {
        if amount > self.content {
            return Err(Refusal::DrawAmount);
        }
        self.content -= amount;
        Ok(())
    }
}
