// The share of a supply that is taken where the capacity to take it rises evenly from 0 to b over the area.
ghost use Rattle.std.specs.Prelude.{◌≡◌, ◌*◌, ◌/◌, ◌<◌, ◌≤◌};
ghost use Rattle.figures.specs.Share.{share_rule, Shared};

// What is not taken of a supply up to b: x × x over twice b. It is halved after the quotient, since twice b may not fit.
#[tactic(auto, using(crate::proofs::Parts::part_le, crate::proofs::Parts::div_half))]
fn left(x: u32, b: u64) -> u32
    requires some { 0 < b }
    requires within { x ≤ b }
    ensures value { result ≡ x * x / (2 * b) }
    ensures part { result ≤ x }
{
    let wide = u64::from(x);
    (wide * wide / b / 2) as u32
}

// The share of x at the greatest capacity b: a part of x that grows with the capacity.
#[tactic(auto, using(crate::proofs::Shares::shared), unfolding(crate::specs::Share::share))]
pub fn share(x: u32, b: u64) -> u32
    ensures { Shared x b result }
{
    if b == 0 {
        0
    } else if u64::from(x) <= b {
        x - left(x, b)
    } else {
        (b - b / 2) as u32
    }
}
