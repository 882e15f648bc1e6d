// A state against a sheet (SPEC 8.4): whether the rod can be one of that sheet.
ghost use Rattle.std.specs.Prelude.{◌≡◌, true, cond, leb, pos};
ghost use Rattle.std.specs.Int.Signed.{le_z};
ghost use Rattle.response.specs.Limits.{limit_on, limits_of, limits_under};
ghost use Rattle.rod.specs.InRange.{rod_in_range};
ghost use Rattle.rod.specs.Against.{asymmetric_belongs, belongs, isotropic_belongs, kinematic_belongs, no_second};

use crate::Rod;
use law::Law;
use response::Limits;
use sheet::material::Material;
use units::{Grain, Magnitude, Quantity};

// Whether a stress doesn't pass a yield limit. A stress away from the limit's side, of the other sign, never does.
fn within_limit(limit: Magnitude, away: bool, size: Magnitude) -> bool
    ensures { result ≡ cond away true (leb size.0 limit.0) }
{
    away || size <= limit
}

// Whether an abscissa isn't below its yield.
fn past_yield(yield_stress: Magnitude, abscissa: Grain) -> bool
    ensures { result ≡ le_z (pos yield_stress.0) abscissa.0 }
{
    !abscissa.negative() && yield_stress <= abscissa.magnitude()
}

fn no_second(rod: Rod) -> bool
    ensures { result ≡ no_second rod }
{
    rod.second == Grain(0)
}

#[tactic(auto, using(crate::proofs::WithinLimitLaws::within_floor), unfolding(crate::specs::Against::isotropic_belongs))]
fn isotropic(material: &Material, rod: Rod, limit: Magnitude) -> bool
    requires limit { limit ≡ limit_on material.now.sheet.modulus.0 material.now.sheet.tension rod.first.0 }
    ensures { result ≡ isotropic_belongs material.now.sheet rod }
{
    past_yield(material.sheet.tension.yield_stress, rod.first)
        && within_limit(limit, false, rod.stress.magnitude())
        && no_second(rod)
}

#[tactic(auto, unfolding(crate::specs::Against::kinematic_belongs))]
fn kinematic(material: &Material, rod: Rod) -> bool
    requires rod_value { rod_in_range rod ≡ true }
    requires centre { rod.law ≡ Law.Kinematic }
    ensures { result ≡ kinematic_belongs material.now.sheet rod }
{
    let radius = material.sheet.tension.yield_stress;
    rod.stress.minus(rod.first).magnitude() <= radius && no_second(rod)
}

#[tactic(auto, using(crate::proofs::WithinLimitLaws::within_tension, crate::proofs::WithinLimitLaws::within_compression), unfolding(crate::specs::Against::asymmetric_belongs))]
fn asymmetric(material: &Material, rod: Rod, limits: Limits) -> bool
    requires limits { limits ≡ limits_under Law.Asymmetric material.now.sheet rod.first.0 rod.second.0 }
    ensures { result ≡ asymmetric_belongs material.now.sheet rod }
{
    let sheet = &material.sheet;
    let negative = rod.stress.negative();
    let size = rod.stress.magnitude();
    past_yield(sheet.tension.yield_stress, rod.first)
        && past_yield(sheet.compression.yield_stress, rod.second)
        && within_limit(limits.first, negative, size)
        && within_limit(limits.second, !negative, size)
}

// Whether the rod can be one of the sheet, from the limits at its variables.
#[tactic(auto, unfolding(crate::specs::Against::belongs))]
pub fn belongs(material: &Material, rod: Rod, limits: Limits) -> bool
    requires in_range { rod_in_range rod ≡ true }
    requires limits { limits ≡ limits_of material.now.sheet rod.first.0 rod.second.0 }
    ensures { result ≡ belongs material.now.sheet rod }
{
    let sheet = &material.sheet;
    if rod.law != sheet.law {
        return false;
    }
    match sheet.law {
        Law::IsotropicLine | Law::IsotropicCurve => isotropic(material, rod, limits.first),
        Law::Kinematic => kinematic(material, rod),
        Law::Asymmetric => asymmetric(material, rod, limits),
    }
}
