// A lone plot: a storage with an area, as a bank of one segment.
ghost use Rattle.std.specs.Prelude.{◌≡◌, ℕ, ◌≤◌, List, [], ◌∷◌};
ghost use Rattle.refusals.specs.Limits.{Answers};
ghost use Rattle.storages.specs.Meaning.{Out};
ghost use Rattle.std.proofs.Common.{arith};
ghost use Rattle.banks.specs.PlotBankLemmas.{only, lone};

use crate::meaning::Bank;
use crate::tract::Tract;
use refusals::Refusal;
use storages::Storage;
use storages::hour::hour;

#[derive(Drop)]
pub struct Plot<S: Storage> {
    storage: S,
    area: u64,
    ghost some: { 1 ≤ area },
    ghost most: { area ≤ 5000 },
    ghost small: { S.Storage.limit storage ≤ 100000000 },
}

impl<S: Storage> Plot<S> {
    ghost use Rattle.banks.specs.Kinds.{plot_limits};

    // A plot of that many acres over a storage, which keeps what it holds.
    pub fn new(storage: S, area: u64) -> Result<Plot<S>, Refusal>
    where
        S: Drop,
        ensures { Answers (plot_limits area (S.Storage.limit storage)) result (λ p. (p.storage ≡ storage) × (p.area ≡ area)) (Unit {0}) }
    {
        if area < 1 || area > 5_000 || storage.ceiling() > 100_000_000 {
            return Err(Refusal::PlotFigure);
        }
        Ok(Plot { storage, area })
    }
}

impl<S: Storage> Bank for Plot<S> {
    ghost use Rattle.banks.specs.Kinds.{plot_tract};

    ghost tracts = { λ p. plot_tract S.Storage p ∷ [] };

    ghost rains = { λ p k i d o q. (k ≡ 0) × S.Storage.steps p.storage i d o q.storage × (q.area ≡ p.area) };

    // a plot's rain is its storage's step
    ghost bounded = { λ b. record { some = omega arith; few = omega arith; each = only _ (record { some = b.some; area = b.most; content = S.Storage.within b.storage; ceiling = b.small }) } };

    ghost rained = { λ b c k p d o r. lone b.area (S.Storage.holds b.storage) (S.Storage.limit b.storage) c.area (S.Storage.holds c.storage) (S.Storage.limit c.storage) k p d o r.0 r.2 (S.Storage.stepped b.storage c.storage p d o r.1) };

    fn count(&self) -> u64 {
        1 // a plot is one segment
    }

    fn tract(&self, segment: u64) -> Tract {
        if segment >= self.count() {
            return Tract::default();
        }
        Tract {
            area: self.area,
            content: self.storage.content(),
            ceiling: self.storage.ceiling(),
        }
    }

    fn volume(&self) -> u64 {
        self.area * self.storage.content()
    }

    fn rain(&mut self, segment: u64, depth: u64, demand: u64) -> Result<(u64, u64, u64), Refusal> {
        if segment != 0 {
            return Err(Refusal::NoSuchSegment(segment));
        }
        hour(&mut self.storage, depth, demand)
    }
}
