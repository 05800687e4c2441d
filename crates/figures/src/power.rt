// Powers of two by sixteenths of an exponent, in 65,536ths.
ghost use Rattle.std.specs.Prelude.{◌≡◌, ◌<◌};
ghost use Rattle.figures.specs.Power.{Powered, entry, TableStands};

// Bounds k is the greatest whole number whose 16th power is at most 2^(256 + k).
const SIXTEENTHS: [u64; 16] = [
    65_536, 68_437, 71_467, 74_631, 77_935, 81_386, 84_989, 88_752, 92_681, 96_785, 101_070,
    105_545, 110_217, 115_097, 120_193, 125_514,
];

// The table's entry k.
fn sixteenth(k: u8) -> u64
    requires { k < 16 }
    ensures { result ≡ entry k }
{
    SIXTEENTHS[usize::from(k)]
}

// 65,536 times two to the power e / 16, by the table, whose rule holds of every entry.
pub fn power(e: u8) -> u64
    ensures powered { Powered e result }
    ensures table { TableStands }
{
    sixteenth(e % 16) << (e / 16)
}
