// How much a rod expands with heat (SPEC 5.7): one coefficient, or points with a straight line from each to the next.
#![tactic(auto)]

ghost use Rattle.std.specs.Prelude.{◌≡◌, true, ◌+◌, ◌*◌, ◌^◌, ◌≤◌, ◌<◌, pos, length};
ghost use Rattle.std.specs.Int.Signed.{le_z, lt_z};
ghost use Rattle.fractions.specs.Rounding.{floor_f};
ghost use Rattle.ranges.specs.Ranges.{temperature_right, most_expansion};
ghost use Rattle.expansion.specs.Points.{standing, points_of, count_of, most_points, point_right, temperatures_rise, PointsUsable, Usable};
ghost use Rattle.expansion.specs.Coefficient.{line, coefficient_in, coefficient_of};

use units::{Expansion, Tenths};

// A point (SPEC 3.9): the coefficient at a temperature.
#[derive(Clone, Copy)]
pub struct Point {
    pub temperature: Tenths,
    pub coefficient: Expansion,
}

// The most points of a sheet (SPEC 3.7, 3.9).
pub const MOST_POINTS: usize = 8;

// The temperature of a place behind the last point (SPEC 3.9): no temperature in range reaches it.
pub const NEVER_REACHED: i64 = ranges::TEMPERATURE.most + 1;

// The points of a sheet (SPEC 3.9): the first `count` of the places. An array with a count, since there is no heap and a sheet is passed by
// value; the places behind hold no point, and are read for speed.
#[derive(Clone, Copy)]
pub struct Points {
    pub count: usize,
    pub places: [Point; MOST_POINTS],
}

// What a sheet says of expansion (SPEC 3.9): one coefficient for every temperature, or points.
#[derive(Clone, Copy)]
pub enum Coefficients {
    Single(Expansion),
    AtPoints(Points),
}

impl Point {
    // The sum of both coefficients, each weighted by the distance to the other point: `past` tenths from this one, `rest` to the next.
    fn weighted(self, next: Point, past: u64, rest: u64) -> u64
        requires rest_nonzero { (0 < past + rest) × (past + rest < 2 ^ 32) }
        requires room { self.coefficient.0 * rest + next.coefficient.0 * past ≤ most_expansion * (past + rest) }
        ensures { result ≡ self.coefficient.0 * rest + next.coefficient.0 * past }
    {
        self.coefficient.0 * rest + next.coefficient.0 * past
    }

    // On the straight line to the next point, rounded down. No difference of the two coefficients is divided, so that a falling line is
    // rounded down as well.
    fn toward(self, next: Point, temperature: Tenths) -> Expansion
        requires temperature_value { (le_z self.temperature.0 temperature.0 ≡ true) × (lt_z temperature.0 next.temperature.0 ≡ true) }
        requires points { (point_right self ≡ true) × (point_right next ≡ true) }
        ensures result_value { pos result.0 ≡ floor_f (line self next temperature.0) }
        ensures most { result.0 ≤ most_expansion }
    {
        let past = temperature.tenths_above(self.temperature);
        let rest = next.temperature.tenths_above(temperature);
        let span = past + rest;
        let coefficient = self.weighted(next, past, rest) / span;
        Expansion(coefficient)
    }
}

impl Points {
    // Whether their temperatures rise strictly.
    pub fn rise(&self) -> bool
        requires { self.now.count ≤ length self.now.places }
        ensures { result ≡ temperatures_rise (standing self.now) }
    {
        // A copy: of the places alone it is so short that it needs no memcpy, which one of all points would.
        let places = self.places;
        let points = &places[..self.count];
        points.is_sorted_by(|before, after| before.temperature < after.temperature)
    }

    // The coefficient at a temperature: beyond the ends the end's, else on the line between the two points around it. The walk stops before
    // the first empty place, which no temperature reaches. It counts to a fixed bound, so that the compiler writes its turns out, each with
    // its own place, and needn't copy the array.
    pub fn at(self, temperature: Tenths) -> Expansion
        requires { PointsUsable self × (temperature_right temperature.0 ≡ true) }
        ensures result_value { pos result.0 ≡ coefficient_in 0 (standing self) temperature.0 }
        ensures most { result.0 ≤ most_expansion }
    {
        let mut before = self.places[0];
        if temperature <= before.temperature {
            return before.coefficient;
        }
        for next in 1..MOST_POINTS {
            let after = self.places[next];
            if temperature < after.temperature {
                if next < self.count {
                    return before.toward(after, temperature);
                }
                return before.coefficient;
            }
            before = after;
        }
        before.coefficient
    }
}

impl Coefficients {
    // Whether the temperatures of the points rise strictly, as those of none do.
    #[tactic(auto, unfolding(crate::specs::Points::temperatures_rise))]
    pub fn rise(self) -> bool
        requires { count_of self ≤ most_points }
        ensures { result ≡ temperatures_rise (points_of self) }
    {
        match self {
            Coefficients::Single(_) => true,
            Coefficients::AtPoints(points) => points.rise(),
        }
    }

    // The coefficient at a temperature.
    #[tactic(auto, unfolding(crate::specs::Coefficient::coefficient_in))]
    pub fn at(self, temperature: Tenths) -> Expansion
        requires { Usable self × (temperature_right temperature.0 ≡ true) }
        ensures result_value { pos result.0 ≡ coefficient_of self temperature.0 }
        ensures most { result.0 ≤ most_expansion }
    {
        match self {
            Coefficients::Single(single) => single,
            Coefficients::AtPoints(points) => points.at(temperature),
        }
    }
}
