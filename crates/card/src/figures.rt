// The figure of a record: decimal digits, with blanks before them.
ghost use Rattle.std.specs.Prelude.{◌≡◌, ℕ, ◌+◌, ◌-◌, ◌*◌, ◌^◌, ◌<◌, ◌≤◌, length};
ghost use Rattle.card.specs.Figures.{unblanked, number_from, figure_of};

// A text without the blanks before it.
fn trimmed(text: &[u8]) -> &[u8]
    ensures bytes { result.now ≡ unblanked text.now }
    ensures shorter { length result.now ≤ length text.now }
{
    let mut rest = text;
    while let [b' ', after @ ..] = rest {
        rest = after;
    }
    rest
}

// A number with one more digit at its end.
fn with_digit(n: u64, digit: u8) -> u64
    requires few { n < 10 ^ 11 }
    requires digit { (48 ≤ digit) × (digit ≤ 57) }
    ensures { result ≡ 10 * n + (digit - 48) }
{
    10 * n + u64::from(digit - b'0')
}

// The number that digits write, to the end of the text.
fn number(text: &[u8]) -> Option<u64>
    requires { length text.now ≤ 12 }
    ensures { result ≡ number_from 0 text.now }
{
    let mut n = 0;
    for digit in text {
        if !digit.is_ascii_digit() {
            return None;
        }
        n = with_digit(n, *digit);
    }
    Some(n)
}

// The number that a figure writes: blanks, then at least one digit, and nothing else.
#[tactic(auto, unfolding(crate::specs::Figures::figure_of))]
pub(crate) fn figure(text: &[u8; 12]) -> Option<u64>
    ensures { result ≡ figure_of text.now }
{
    match trimmed(text) {
        [] => None,
        digits => number(digits),
    }
}
