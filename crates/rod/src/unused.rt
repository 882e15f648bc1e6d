// The rod of a sheet before its first pair (SPEC 3.15).
ghost use Rattle.std.specs.Prelude.{◌≡◌, true, ◌<◌, ◌^◌};
ghost use Rattle.units.specs.Kinds.{grain};
ghost use Rattle.rod.specs.Unused.{start_of, unused_of};

use crate::Rod;
use sheet::material::Material;
use units::{Grain, Magnitude, Nano};

// A variable of an unused rod, which the law says to be an abscissa or not.
fn start(abscissa: bool, yield_stress: Magnitude) -> Grain
    requires { abscissa ≡ true → yield_stress.0 < 2 ^ 63 }
    ensures { result ≡ grain (start_of abscissa yield_stress.0) }
{
    if abscissa {
        return Grain::of(false, yield_stress);
    }
    Grain(0)
}

impl Rod {
    #[tactic(auto, unfolding(crate::specs::Unused::unused_of))]
    pub fn unused(material: &Material) -> Rod
        ensures { result ≡ unused_of material.now.sheet }
    {
        let sheet = &material.sheet;
        let law = sheet.law;
        let tension = sheet.tension.yield_stress;
        let compression = sheet.compression.yield_stress;
        Rod {
            law,
            yielded: false,
            strain: Nano(0),
            temperature: sheet.reference,
            stress: Grain(0),
            first: start(law.first_is_abscissa(), tension),
            second: start(law.has_second(), compression),
            pairs: 0,
            yielded_pairs: 0,
        }
    }
}
