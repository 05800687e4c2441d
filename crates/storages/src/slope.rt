// A slope: overland water, which runs off the faster the deeper it stands.
ghost use Rattle.std.specs.Prelude.{◌≡◌, ◌+◌, ◌<◌, ◌≤◌};
ghost use Rattle.refusals.specs.Limits.{Answers};
ghost use Rattle.storages.specs.Meaning.{gone};
ghost use Rattle.storages.specs.Slope.{slope_top, slope_limits, Runs, Flows};
ghost use Rattle.std.proofs.Common.{rules};

use crate::meaning::Storage;
use figures::root::root;
use refusals::Refusal;

// The ceiling of every slope.
const CEILING: u64 = 100_000_000;

#[derive(Drop)]
pub struct Slope {
    rate: u64,
    content: u64,
    ghost some: { 1 ≤ rate },
    ghost most: { rate ≤ 100000 },
    ghost fits: { content ≤ slope_top },
}

impl Slope {
    // An empty slope of this rate, 1 to 100,000.
    pub fn new(rate: u64) -> Result<Slope, Refusal>
        ensures { Answers (slope_limits rate) result (λ s. (s.rate ≡ rate) × (s.content ≡ 0)) (Unit {0}) }
    {
        if rate < 1 || rate > 100_000 {
            return Err(Refusal::StorageFigure);
        }
        Ok(Slope { rate, content: 0 })
    }
}

// What runs off at this rate of so deep a sheet, were there no end to it.
fn runoff(rate: u64, full: u64) -> u64
    requires rate { rate ≤ 100000 }
    requires full { full ≤ slope_top }
    ensures { Runs rate full result }
{
    rate * full * u64::from(root(full as u32)) / 1_000_000_000
}

impl Storage for Slope {
    ghost holds = { λ s. s.content };

    ghost limit = { λ _. slope_top };

    ghost steps = { λ s i d o t. Flows s.rate (s.content + i) o × (t.content + gone o ≡ s.content + i) × (t.rate ≡ s.rate) };

    ghost within = { Prim.search rules };

    ghost bounded = { Prim.search rules };

    ghost stepped = { Prim.search rules };

    fn content(&self) -> u64 {
        self.content
    }

    fn ceiling(&self) -> u64 {
        CEILING
    }

    fn step(&mut self, inflow: u64, demand: u64) -> Result<(u64, u64, u64), Refusal> {
        if inflow > CEILING - self.content {
            return Err(Refusal::StorageFull(0));
        }
        let full = self.content + inflow;
        let release = full.min(runoff(self.rate, full));
        self.content = full - release;
        Ok((release, 0, 0))
    }
}
