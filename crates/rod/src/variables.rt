// The ranges of a rod's two variables under each law (SPEC 3.11).
ghost use Rattle.std.specs.Prelude.{◌≡◌, ℤ};
ghost use Rattle.bits.specs.Field.{withinℤ};
ghost use Rattle.ranges.specs.Ranges.{around, most_stress};
ghost use Rattle.rod.specs.Variables.{abscissa_right, first_right, second_right};

use bits::Bounds;
use law::Law;
use units::Grain;

// Whether an abscissa lies in its range.
fn abscissa_right(abscissa: Grain) -> bool
    ensures { result ≡ abscissa_right abscissa.0 }
{
    ranges::ABSCISSA.hold(abscissa.0)
}

// Whether a stress lies in its range, or a kinematic centre, whose range is the same.
pub fn stress_right(stress: Grain) -> bool
    ensures { result ≡ around most_stress stress.0 }
{
    ranges::STRESS.hold(stress.0)
}

// The range of the first variable: that of an abscissa, or that of a centre.
pub fn first_bounds(law: Law) -> Bounds<i64>
    ensures { (first : ℤ) → withinℤ result.least result.most first ≡ first_right law first }
{
    if law.first_is_abscissa() {
        return ranges::ABSCISSA;
    }
    ranges::STRESS
}

// Whether the first variable lies in its range.
pub fn first_right(law: Law, first: Grain) -> bool
    ensures { result ≡ first_right law first.0 }
{
    first_bounds(law).hold(first.0)
}

// Whether the second variable lies in its range, where the law has one.
pub fn second_right(law: Law, second: Grain) -> bool
    ensures { result ≡ second_right law second.0 }
{
    !law.has_second() || abscissa_right(second)
}
