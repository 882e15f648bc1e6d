// A side with Young's modulus: the traction curve, which is read at an abscissa.
ghost use Rattle.std.specs.Prelude.{◌≡◌, length};
ghost use Rattle.curve.specs.Sides.{Readable, most_segments};

use crate::{Reading, Side};
use units::{Magnitude, Modulus};

// A side that can be read in 64 bits (SPEC 4.10). Its array's length is said, since no proof knows it behind a reference.
#[derive(Clone, Copy)]
pub struct TractionCurve<'a> {
    pub side: &'a Side,
    pub modulus: Modulus,
    pub ghost readable: { Readable side.now modulus },
    pub ghost places: { length side.now.segments ≡ most_segments },
}

impl<'a> TractionCurve<'a> {
    ghost use Rattle.std.specs.Prelude.{◌≤◌};
    ghost use Rattle.curve.specs.Sides.{reading_of};

    // A side of one segment is read at once; the walk over several stands apart, so that this stays short.
    pub fn at(self, abscissa: Magnitude) -> Reading
        ensures value { result ≡ reading_of self.entry.side.now self.entry.modulus abscissa }
        ensures most { result.limit.0 ≤ abscissa.0 }
    {
        let yield_stress = self.side.yield_stress;
        if abscissa < yield_stress {
            return Reading {
                limit: abscissa,
                tangent: self.modulus,
            };
        }
        if self.side.count == 1 {
            let segment = self.side.segments[0];
            return segment.reading(self.modulus, yield_stress, abscissa.minus(yield_stress));
        }
        self.walk(abscissa)
    }

    // One walk: each segment is taken once, and the rise up to its start is carried along (SPEC 4.11).
    fn walk(self, abscissa: Magnitude) -> Reading
        requires { self.side.now.yield_stress.0 ≤ abscissa.0 }
        ensures value { result ≡ reading_of self.entry.side.now self.entry.modulus abscissa }
        ensures most { result.limit.0 ≤ abscissa.0 }
    {
        let modulus = self.modulus;
        let yield_stress = self.side.yield_stress;
        let last = self.side.count - 1;
        let mut rise = Magnitude(0);
        let mut past = abscissa.minus(yield_stress);
        for segment in &self.side.segments[..last] {
            let span = segment.length.times(modulus);
            let own_rise = segment.length.times(segment.tangent);
            if past < span {
                return segment.reading(modulus, yield_stress.plus(rise), past);
            }
            past = past.minus(span);
            rise = rise.plus(own_rise);
        }
        let segment = self.side.segments[last];
        segment.reading(modulus, yield_stress.plus(rise), past)
    }
}
