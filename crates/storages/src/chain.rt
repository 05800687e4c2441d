// A chain: one storage above another, which it feeds.
ghost use Rattle.std.specs.Prelude.{◌≡◌, ◌+◌, ◌≤◌, min};
ghost use Rattle.refusals.specs.Limits.{Answers};
ghost use Rattle.std.proofs.Common.{rules};

use crate::hour::hour;
use crate::meaning::{Storage, Tapped};
use refusals::Refusal;

#[derive(Drop)]
pub struct Chain<A: Storage, B: Storage> {
    above: A,
    below: B,
    ghost room: { A.Storage.holds above + B.Storage.holds below ≤ min (A.Storage.limit above) (B.Storage.limit below) },
}

impl<A: Storage, B: Storage> Chain<A, B> {
    ghost use Rattle.storages.specs.Chain.{chain_limits};

    // A chain of two storages, which keep what they hold; a refusal gives both up.
    pub fn new(above: A, below: B) -> Result<Chain<A, B>, Refusal>
    where
        A: Drop,
        B: Drop,
        ensures { Answers (chain_limits (A.Storage.holds above) (B.Storage.holds below) (A.Storage.limit above) (B.Storage.limit below)) result (λ s. (s.above ≡ above) × (s.below ≡ below)) (Unit {0}) }
    {
        if above.content() + below.content() > above.ceiling().min(below.ceiling()) {
            return Err(Refusal::JoinedContents);
        }
        Ok(Chain { above, below })
    }
}

impl<A: Storage, B: Storage> Storage for Chain<A, B> {
    ghost use Rattle.storages.specs.Chain.{both, lesser, Chained};

    ghost holds = { λ s. both A.Storage B.Storage s };

    ghost limit = { λ s. lesser A.Storage B.Storage s };

    ghost steps = { λ s i d o t. Chained A.Storage B.Storage s i d o t };

    ghost within = { Prim.search rules };

    ghost bounded = { Prim.search rules };

    ghost stepped = { Prim.search rules };

    fn content(&self) -> u64 {
        self.above.content() + self.below.content()
    }

    fn ceiling(&self) -> u64 {
        self.above.ceiling().min(self.below.ceiling())
    }

    fn step(&mut self, inflow: u64, demand: u64) -> Result<(u64, u64, u64), Refusal> {
        if inflow > self.ceiling() - self.content() {
            return Err(Refusal::StorageFull(0));
        }
        let upper = hour(&mut self.above, inflow, demand)?;
        let lower = hour(&mut self.below, upper.0, demand - upper.1)?;
        Ok((lower.0, upper.1 + lower.1, upper.2 + lower.2))
    }
}

impl<A: Tapped, B: Tapped> Tapped for Chain<A, B> {
    ghost use Rattle.storages.specs.Chain.{ChainDrawn};

    ghost draws = { λ s n t. ChainDrawn A.Storage B.Storage A.Tapped.own B.Tapped.own s n t };

    ghost drawn = { Prim.search rules };

    fn draw(&mut self, amount: u64) -> Result<(), Refusal> {
        let held = self.below.content();
        if amount > self.above.content() + held {
            return Err(Refusal::DrawAmount);
        }
        let lower = amount.min(held);
        self.below.draw(lower)?;
        self.above.draw(amount - lower)
    }
}
