// The yield limits that a rod has reached (SPEC 7.12): found at its abscissas, and kept up from pair to pair.
ghost use Rattle.std.specs.Prelude.{◌≡◌};
ghost use Rattle.response.specs.Limits.{limit_on, limits_after, limits_of};

use crate::Limits;
use curve::traction::TractionCurve;
use law::Law;
use sheet::material::Material;
use units::{Grain, Magnitude, Quantity};

// The yield limit of a side at an abscissa.
#[tactic(auto, unfolding(curve::specs::Sides::reading_of))]
fn limit_on(curve: TractionCurve<'_>, abscissa: Grain) -> Magnitude
    ensures { result ≡ limit_on curve.entry.modulus.0 curve.entry.side.now abscissa.0 }
{
    curve.at(abscissa.magnitude()).limit
}

impl Limits {
    // The limits at the two variables of a rod.
    pub fn of(material: &Material, first: Grain, second: Grain) -> Limits
        ensures { result ≡ limits_of material.now.sheet first.0 second.0 }
    {
        match material.sheet.law {
            Law::IsotropicLine | Law::IsotropicCurve => Limits {
                first: limit_on(material.tension(), first),
                second: Magnitude(0),
            },
            Law::Kinematic => Limits {
                first: Magnitude(0),
                second: Magnitude(0),
            },
            Law::Asymmetric => Limits {
                first: limit_on(material.tension(), first),
                second: limit_on(material.compression(), second),
            },
        }
    }

    // The limits after a pair: the stress lies at the new limit of the side that flowed.
    pub fn after(self, law: Law, yielded: bool, stress: Grain) -> Limits
        ensures { result ≡ limits_after law yielded stress.0 self }
    {
        if !yielded {
            return self;
        }
        let reached = stress.magnitude();
        match law {
            Law::Kinematic => self,
            Law::Asymmetric if stress.negative() => Limits {
                second: reached,
                ..self
            },
            Law::IsotropicLine | Law::IsotropicCurve | Law::Asymmetric => Limits {
                first: reached,
                ..self
            },
        }
    }
}
