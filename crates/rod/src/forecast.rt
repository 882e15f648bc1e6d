// The tangent modulus that a state forecasts (SPEC 7.13).
ghost use Rattle.std.specs.Prelude.{◌≡◌, nat_abs};
ghost use Rattle.units.specs.Kinds.{modulus};
ghost use Rattle.curve.specs.Tangent.{tangent_at};
ghost use Rattle.curve.specs.Sides.{curve_of};
ghost use Rattle.sheet.specs.Sound.{tangent_of};
ghost use Rattle.rod.specs.Forecast.{forecast_of};

use crate::Rod;
use law::Law;
use sheet::material::Material;
use units::{Modulus, Quantity};

// The tangent of the segment that holds the abscissa.
#[tactic(auto, unfolding(curve::specs::Sides::reading_of))]
fn on_curve(material: &Material, rod: Rod) -> Modulus
    ensures { result ≡ modulus (tangent_at material.now.sheet.modulus.0 (curve_of material.now.sheet.tension) (nat_abs rod.first.0)) }
{
    let reading = material.tension().at(rod.first.magnitude());
    reading.tangent
}

// The tangent of the side's first segment.
fn of_line(material: &Material) -> Modulus
    ensures { result ≡ modulus (tangent_of material.now.sheet.tension 0) }
{
    material.sheet.tension.segments[0].tangent
}

#[tactic(auto, unfolding(crate::specs::Forecast::forecast_of))]
pub fn forecast(material: &Material, rod: Rod) -> Modulus
    ensures { result ≡ modulus (forecast_of material.now.sheet rod) }
{
    let sheet = &material.sheet;
    if !rod.yielded {
        return sheet.modulus;
    }
    match sheet.law {
        Law::IsotropicLine | Law::IsotropicCurve => on_curve(material, rod),
        Law::Kinematic => of_line(material),
        Law::Asymmetric => sheet.modulus,
    }
}
