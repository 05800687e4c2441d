// What every storage means, and what a tapped one adds.
ghost use Rattle.std.specs.Prelude.{◌≡◌, ℕ, ◌+◌, ◌<◌, ◌≤◌};
ghost use Rattle.refusals.specs.Limits.{Answers};
ghost use Rattle.storages.specs.Meaning.{Out, Stepped, Drawn, top, step_limits, draw_limits};

use refusals::Refusal;

// A content and a ceiling, by what an hour does to them.
pub trait Storage {
    // the content
    ghost holds: { Self → ℕ };

    // the ceiling
    ghost limit: { Self → ℕ };

    // a granted step: before, inflow, demand, answer, after
    ghost steps: { Self → ℕ → ℕ → Out → Self → Type 0 };

    // The content.
    fn content(&self) -> u64
        ensures { result ≡ holds self.now };

    // The ceiling.
    fn ceiling(&self) -> u64
        ensures { result ≡ limit self.now };

    // One hour: answers release, evaporated and deep loss, or refuses as full.
    fn step(&mut self, inflow: u64, demand: u64) -> Result<(u64, u64, u64), Refusal>
        ensures { Answers (step_limits (holds self.old) (limit self.old) inflow) result (λ o. steps self.old inflow demand o self.new) (self.new ≡ self.old) };

    ghost within: { (s : Self) → holds s ≤ limit s };

    ghost bounded: { (s : Self) → limit s ≤ top };

    ghost stepped: { (s t : Self) (i d : ℕ) (o : Out) → steps s i d o t → Stepped (holds s) (limit s) i d o (holds t) (limit t) };
}

// A storage from which water can be drawn.
pub trait Tapped: Storage {
    // a granted draw: before, amount, after
    ghost draws: { Self → ℕ → Self → Type 0 };

    // Takes an amount out, or refuses where the content does not cover it.
    fn draw(&mut self, amount: u64) -> Result<(), Refusal>
        ensures { Answers (draw_limits (Self.Storage.holds self.old) amount) result (λ _. draws self.old amount self.new) (self.new ≡ self.old) };

    ghost drawn: { (s t : Self) (n : ℕ) → draws s n t → Drawn (Self.Storage.holds s) (Self.Storage.limit s) n (Self.Storage.holds t) (Self.Storage.limit t) };
}
