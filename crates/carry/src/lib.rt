// A pair tried on a rod, and its trial kept (SPEC 7.15), by value: a trial answers the rod as the pair would leave it, or a refusal.
#![tactic(auto)]

ghost use Rattle.std.specs.Prelude.{◌≡◌, true};
ghost use Rattle.ranges.specs.Ranges.{temperature_right};
ghost use Rattle.carry.specs.Reaching.{reached_of};

pub mod standing; // standing.rt: a rod that stands on its material, and its trials

use response::Limits;
use rod::Rod;
use sheet::material::Material;
use units::Nano;

// A rod with the yield limits at its variables (SPEC 7.12) and the thermal strain at its temperature. They are found once and kept up from
// pair to pair.
#[derive(Clone, Copy)]
pub struct Reached {
    pub rod: Rod,
    pub limits: Limits,
    pub thermal: Nano,
}

impl Reached {
    pub fn of(material: &Material, rod: Rod) -> Reached
        requires { temperature_right rod.temperature.0 ≡ true }
        ensures { result ≡ reached_of material.now.sheet rod }
    {
        Reached {
            rod,
            limits: Limits::of(material, rod.first, rod.second),
            thermal: material.thermal(rod.temperature),
        }
    }
}
