// One side of the traction curve (SPEC 4): the yield limit T, read at an abscissa.
#![tactic(auto)]

pub mod traction; // traction.rt: a side with Young's modulus, and its reading

ghost use Rattle.std.specs.Prelude.{◌≡◌, ◌+◌, ◌*◌, ◌/◌, ◌^◌, ◌≤◌, ◌<◌};
ghost use Rattle.units.specs.Kinds.{magnitude};
ghost use Rattle.curve.specs.Sides.{Readable, reading_of};

use traction::TractionCurve;
use units::{Length, Magnitude, Modulus};

// A straight part of the curve (SPEC 3.8). The last segment of a side has no end; its length is 0.
// Not an `Option`: the layout has that 0, and the last segment is told by its place.
#[derive(Clone, Copy)]
pub struct Segment {
    pub length: Length,
    pub tangent: Modulus,
}

// The most segments of a side (SPEC 3.7, 3.9).
pub const MOST_SEGMENTS: usize = 7;

// One side of the curve, tension or compression: the yield stress, and `count` segments (SPEC 3.9).
// The segments are an array, since there is no heap and a side is passed by value; the places behind `count` hold none.
#[derive(Clone, Copy)]
pub struct Side {
    pub yield_stress: Magnitude,
    pub count: usize,
    pub segments: [Segment; MOST_SEGMENTS],
}

// What the curve says at an abscissa (SPEC 4.10): the yield limit, rounded down, and the tangent modulus.
#[derive(Clone, Copy)]
pub struct Reading {
    pub limit: Magnitude,
    pub tangent: Modulus,
}

impl Segment {
    // The reading at `past` beyond the segment's start, where the limit is `start`.
    fn reading(self, modulus: Modulus, start: Magnitude, past: Magnitude) -> Reading
        requires modulus_nonzero { (0 < modulus.0) × (self.tangent.0 ≤ modulus.0) × (modulus.0 ≤ 2 ^ 32) }
        requires room { start.0 + past.0 < 2 ^ 64 }
        ensures { result ≡ record { limit = magnitude (start.0 + past.0 * self.tangent.0 / modulus.0); tangent = self.tangent } }
    {
        let tangent = self.tangent;
        let limit = start.plus(past.share(tangent, modulus));
        Reading { limit, tangent }
    }
}

impl Side {
    // The reading of a side by value.
    pub fn at(self, modulus: Modulus, abscissa: Magnitude) -> Reading
        requires { Readable self modulus }
        ensures value { result ≡ reading_of self modulus abscissa }
        ensures most { result.limit.0 ≤ abscissa.0 }
    {
        let side = &self;
        TractionCurve { side, modulus }.at(abscissa)
    }
}
