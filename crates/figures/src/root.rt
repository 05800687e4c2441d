// The root of a depth: the greatest whole number whose cube is at most the depth's square.
ghost use Rattle.std.specs.Prelude.{◌≡◌, ℕ, ◌+◌, ◌*◌, ◌<◌, ◌≤◌, Decides};
ghost use Rattle.figures.specs.Root.{Root, cube};

// Whether the cube of c is at most the square, in a width in which every cube fits.
fn fits(c: u32, square: u64) -> bool
    ensures { Decides result (cube c ≤ square) }
{
    let wide = u128::from(c);
    wide * wide * wide <= u128::from(square)
}

// A number near the cube root: from the count of the square's bits, by four of Newton's steps.
// Nothing rests on how near it comes, since what follows tests each number by its cube.
fn guess(y: u32) -> u32 {
    let wide = u64::from(y);
    let square = wide * wide;
    let bits = 64 - square.leading_zeros();
    let mut c = ((3u64 << ((bits + 2) / 3)) / 4).max(1);
    for _ in 0..4 {
        c = ((2 * c + square / (c * c)) / 3).clamp(1, 0xffff_ffff);
    }
    c as u32
}

// Steps down from c to the first number whose cube fits.
fn lowered(mut c: u32, square: u64) -> u32
    ensures fits { cube result ≤ square }
    ensures first { (d : ℕ) → d ≤ c → cube d ≤ square → d ≤ result }
{
    while !fits(c, square) {
        c -= 1;
    }
    c
}

// Steps up from c, whose cube fits, to the last number whose cube fits.
fn raised(mut c: u32, square: u64) -> u32
    requires { cube c ≤ square }
    ensures fits { cube result ≤ square }
    ensures past { square < cube (result + 1) }
{
    while fits(c + 1, square) {
        c += 1;
    }
    c
}

// The greatest whole number whose cube is at most the square of y; there is only one.
pub fn root(y: u32) -> u32
    ensures root { Root y result }
    ensures only { (c : ℕ) → Root y c → c ≡ result }
{
    let wide = u64::from(y);
    let square = wide * wide;
    raised(lowered(guess(y), square), square)
}
