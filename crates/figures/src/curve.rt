// Curves of the land, straight between knots and flat after the last: what the upper zone keeps, what sinks to groundwater.
ghost use Rattle.std.specs.Prelude.{◌≡◌, ◌*◌, ◌/◌, ◌^◌, ◌<◌, ◌≤◌};
ghost use Rattle.figures.specs.Curve.{place as place_of, between, curve as curve_at, upper_part, ground_part, upper_knots, ground_knots, Readable, Apart, Through};

use crate::fraction::Fraction;

// A value, in parts of 1,048,576, at a multiple of the nominal content.
#[derive(Clone, Copy)]
struct Knot {
    multiple: u8,
    denominator: u8,
    value: u32,
}

// Where a curve stands: a content, and the fraction there.
#[derive(Clone, Copy)]
struct Point {
    place: u64,
    value: Fraction,
    ghost near: { place < 2 ^ 40 },
}

const UPPER: [Knot; 6] = [
    Knot {
        multiple: 1,
        denominator: 1,
        value: 990_321,
    },
    Knot {
        multiple: 2,
        denominator: 1,
        value: 524_288,
    },
    Knot {
        multiple: 5,
        denominator: 2,
        value: 116_508,
    },
    Knot {
        multiple: 3,
        denominator: 1,
        value: 16_384,
    },
    Knot {
        multiple: 7,
        denominator: 2,
        value: 1_677,
    },
    Knot {
        multiple: 4,
        denominator: 1,
        value: 134,
    },
];

const GROUND: [Knot; 5] = [
    Knot {
        multiple: 1,
        denominator: 3,
        value: 38_836,
    },
    Knot {
        multiple: 1,
        denominator: 1,
        value: 524_288,
    },
    Knot {
        multiple: 5,
        denominator: 3,
        value: 932_067,
    },
    Knot {
        multiple: 7,
        denominator: 3,
        value: 1_032_192,
    },
    Knot {
        multiple: 3,
        denominator: 1,
        value: 1_046_898,
    },
];

impl Knot {
    // Where the knot stands for a nominal content: the multiple first, then the quotient.
    fn point(self, nominal: u32) -> Point
        requires divisor { 1 ≤ self.denominator }
        requires part { self.value ≤ 1048576 }
        ensures place { result.place ≡ place_of nominal self }
        ensures value { result.value.parts ≡ self.value }
    {
        Point {
            place: u64::from(self.multiple) * u64::from(nominal) / u64::from(self.denominator),
            value: Fraction {
                parts: u64::from(self.value),
            },
        }
    }
}

// How much of a difference is gone after this way of a piece's length.
fn gone(difference: u64, way: u64, length: u64) -> u64
    requires difference { difference ≤ 1048576 }
    requires way { way < length }
    requires content { way < 2 ^ 40 }
    ensures value { result ≡ difference * way / length }
    ensures part { result ≤ difference }
{
    difference * way / length
}

// The fraction at z on the straight piece between two points.
fn on_piece(from: Point, to: Point, z: u64) -> Fraction
    requires before { from.place ≤ z }
    requires after { z < to.place }
    ensures { result.parts ≡ between from.place from.value.parts to.place to.value.parts z }
{
    let (v, w) = (from.value.parts, to.value.parts);
    let (way, length) = (z - from.place, to.place - from.place);
    let parts = if v <= w {
        v + gone(w - v, way, length)
    } else {
        v - gone(v - w, way, length)
    };
    Fraction { parts }
}

// The fraction at a content, of the curve that begins with `first` at 0 and goes on by these knots.
fn read(first: Fraction, knots: &[Knot], nominal: u32, content: u64) -> Fraction
    requires { Readable knots.now }
    ensures { result.parts ≡ curve_at nominal content first.parts knots.now }
{
    let mut last = Point {
        place: 0,
        value: first,
    };
    for knot in knots {
        let next = knot.point(nominal);
        if content < next.place {
            return on_piece(last, next, content);
        }
        last = next;
    }
    last.value
}

// The part of slope water that the upper zone keeps, by its content and its nominal content.
// Its knots stand apart for every nominal content that a card may have, and the curve goes through them.
#[tactic(auto, unfolding(crate::specs::Curve::upper_part))]
pub fn upper_zone_part(nominal: u32, content: u64) -> Fraction
    ensures value { result.parts ≡ upper_part nominal content }
    ensures apart { Apart 50000 2000000 upper_knots }
    ensures through { Through 50000 2000000 1048576 upper_knots }
{
    let whole = Fraction { parts: 1_048_576 };
    read(whole, &UPPER, nominal, content)
}

// The part of infiltration and percolation that goes to groundwater, by the lower zone's content and its nominal content.
// Its knots stand apart for every nominal content that a card may have, and the curve goes through them.
#[tactic(auto, unfolding(crate::specs::Curve::ground_part))]
pub fn groundwater_part(nominal: u32, content: u64) -> Fraction
    ensures value { result.parts ≡ ground_part nominal content }
    ensures apart { Apart 2000000 15000000 ground_knots }
    ensures through { Through 2000000 15000000 0 ground_knots }
{
    let none = Fraction { parts: 0 };
    read(none, &GROUND, nominal, content)
}
