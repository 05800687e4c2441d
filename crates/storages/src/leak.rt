// A leak: part of each inflow goes deep before it reaches the storage below.
ghost use Rattle.std.specs.Prelude.{◌≡◌, ◌≤◌, ◌-◌};
ghost use Rattle.refusals.specs.Limits.{Answers};
ghost use Rattle.storages.specs.Leak.{leak_limits, Leaks};
ghost use Rattle.storages.specs.Leak as SpecsLeak;
ghost use Rattle.storages.specs.Balances.{leak_stepped};
ghost use Rattle.std.proofs.Common.{rules};

use crate::meaning::{Storage, Tapped};
use figures::fraction::Fraction;
use refusals::Refusal;

#[derive(Drop)]
pub struct Leak<A: Storage> {
    loss: Fraction,
    below: A,
    ghost most: { loss.parts ≤ 524288 },
}

impl<A: Storage> Leak<A> {
    // A leak of `loss` parts of 1,048,576 over a storage, which keeps what it holds; a refusal gives the storage up.
    pub fn new(loss: u64, below: A) -> Result<Leak<A>, Refusal>
    where
        A: Drop,
        ensures { Answers (leak_limits loss) result (λ s. (s.loss.parts ≡ loss) × (s.below ≡ below)) (Unit {0}) }
    {
        if loss > 524_288 {
            return Err(Refusal::StorageFigure);
        }
        Ok(Leak {
            loss: Fraction { parts: loss },
            below,
        })
    }
}

impl<A: Storage> Storage for Leak<A> {
    ghost holds = { λ s. A.Storage.holds s.below };

    ghost limit = { λ s. A.Storage.limit s.below };

    ghost steps = { λ s i d o t. Leaks A.Storage s.loss.parts s.below i d o t.below × (t.loss ≡ s.loss) };

    ghost within = { Prim.search rules };

    ghost bounded = { Prim.search rules };

    // a leak's step means what a step means, since the step below does
    ghost stepped = { λ s t i d o steps.
        let inner = steps.0.inner in
        let below = A.Storage.stepped s.below t.below (i - SpecsLeak.lost s.loss.parts i) d inner steps.0.steps in
        leak_stepped s.loss.parts (A.Storage.holds s.below) (A.Storage.limit s.below) i d (A.Storage.holds t.below) (A.Storage.limit t.below) inner o s.most below steps.0.answer };

    fn content(&self) -> u64 {
        self.below.content()
    }

    fn ceiling(&self) -> u64 {
        self.below.ceiling()
    }

    fn step(&mut self, inflow: u64, demand: u64) -> Result<(u64, u64, u64), Refusal> {
        if inflow > self.below.ceiling() - self.below.content() {
            return Err(Refusal::StorageFull(0));
        }
        let lost = self.loss.of(inflow);
        let (release, evaporated, deep) = self.below.step(inflow - lost, demand)?;
        Ok((release, evaporated, deep + lost))
    }
}

impl<A: Tapped> Tapped for Leak<A> {
    ghost draws = { λ s n t. A.Tapped.draws s.below n t.below × (t.loss ≡ s.loss) };

    ghost drawn = { Prim.search rules };

    fn draw(&mut self, amount: u64) -> Result<(), Refusal> {
        if amount > self.below.content() {
            return Err(Refusal::DrawAmount);
        }
        self.below.draw(amount)
    }
}
