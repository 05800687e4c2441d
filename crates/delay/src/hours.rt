// The hours of a delay: water on its way, by the hour in which it comes.
ghost use Rattle.std.specs.Prelude.{◌≡◌, ℕ, ◌+◌, ◌-◌, ◌*◌, ◌/◌, ◌^◌, ◌≤◌, min, length, sum, slice_index};
ghost use Rattle.storages.specs.Meaning.{top, whole};
ghost use Rattle.delay.specs.Hours.{longest, padded as padded_with, added, nearer, drained as drained_by};

use figures::fraction::Fraction;

// The most weights that a delay may have.
pub(crate) const LONGEST: usize = 24;

// The portion of an inflow up to a sum of weights, above what fell before it.
fn portion(inflow: u64, weights: Fraction, fallen: u64) -> u64
    requires { fallen ≤ inflow * weights.parts / whole }
    ensures { result ≡ inflow * weights.parts / whole - fallen }
{
    weights.of(inflow) - fallen
}

// The sum of the weights, or the greatest number of 64 bits where it is more.
pub(crate) fn total(weights: &[u64]) -> u64
    ensures { result ≡ min (sum weights.now) (2 ^ 64 - 1) }
{
    let mut sum = 0u64;
    for weight in weights {
        sum = sum.saturating_add(*weight);
    }
    sum
}

// The weights, with 0 for each hour that has none.
pub(crate) fn padded(weights: &[u64]) -> [u64; LONGEST]
    requires { length weights.now ≤ longest }
    ensures weights { result ≡ padded_with weights.now }
    ensures total { sum result ≡ sum weights.now }
{
    let mut all = [0; LONGEST];
    all[0..weights.len()].copy_from_slice(weights);
    all
}

// The hours with an inflow added by the weights: each portion is a difference of quotients, so that all add up to the inflow.
pub(crate) fn spread(hours: [u64; LONGEST], weights: &[u64; LONGEST], inflow: u64) -> [u64; LONGEST]
    requires whole { sum weights.now ≡ whole }
    requires room { sum hours + inflow ≤ top }
    ensures hours { result ≡ added inflow weights.now hours }
    ensures total { sum result ≡ sum hours + inflow }
{
    let mut full = hours;
    let mut before = Fraction { parts: 0 };
    let mut fallen = 0;
    for (j, weight) in weights.iter().enumerate() {
        let after = Fraction {
            parts: before.parts + *weight,
        };
        full[j] += portion(inflow, after, fallen);
        fallen = after.of(inflow);
        before = after;
    }
    full
}

// The hours once the soonest is gone: the others one nearer, and the last 0.
pub(crate) fn advanced(hours: [u64; LONGEST]) -> [u64; LONGEST]
    ensures hours { result ≡ nearer hours }
    ensures total { sum result + slice_index hours 0 ≡ sum hours }
{
    let mut next = hours;
    next[0] = 0;
    next.rotate_left(1);
    next
}

// The hours after an amount is drawn, the soonest hour first.
pub(crate) fn drained(hours: [u64; LONGEST], amount: u64) -> [u64; LONGEST]
    requires { amount ≤ sum hours }
    ensures hours { result ≡ drained_by amount hours }
    ensures total { sum result + amount ≡ sum hours }
{
    let mut rest = hours;
    let mut left = amount;
    for hour in rest.iter_mut() {
        let taken = left.min(*hour);
        *hour -= taken;
        left -= taken;
    }
    rest
}
