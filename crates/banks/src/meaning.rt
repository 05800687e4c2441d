// What every bank means.
ghost use Rattle.std.specs.Prelude.{◌≡◌, ℕ, List, length};
ghost use Rattle.refusals.specs.Limits.{Answers};
ghost use Rattle.storages.specs.Meaning.{Out};
ghost use Rattle.banks.specs.Rows.{at, volume, Bounded, Rained, rain_limits};
ghost use Rattle.banks.specs.declared.tract.Tract.{Tract};

use crate::tract::Tract;
use refusals::Refusal;

// A row of segments, counted from 0.
pub trait Bank {
    // the row of segments
    ghost tracts: { Self → List Tract };

    // a granted rain: before, segment, depth, demand, answer, after
    ghost rains: { Self → ℕ → ℕ → ℕ → Out → Self → Type 0 };

    // How many segments there are.
    fn count(&self) -> u64
        ensures { result ≡ length (tracts self.now) };

    // A segment, all zeros if it is missing.
    fn tract(&self, segment: u64) -> Tract
        ensures { result ≡ at (tracts self.now) segment };

    // All water on the bank: area times content, added up.
    fn volume(&self) -> u64
        ensures { result ≡ volume (tracts self.now) };

    // One hour of rain on one segment: answers the depths released, evaporated and lost deep, or refuses a missing or a full segment.
    fn rain(&mut self, segment: u64, depth: u64, demand: u64) -> Result<(u64, u64, u64), Refusal>
        ensures { Answers (rain_limits (tracts self.old) segment depth) result (λ o. rains self.old segment depth demand o self.new) (self.new ≡ self.old) };

    ghost bounded: { (b : Self) → Bounded (tracts b) };

    ghost rained: { (b c : Self) (k p d : ℕ) (o : Out) → rains b k p d o c → Rained (tracts b) k p d o (tracts c) };
}
