// The law's answer to a trial stress (SPEC 7.11). Magnitude and sign are taken apart, a side is read on magnitudes, the sign is put back.
#![tactic(auto)]

mod reached; // reached.rt: the yield limits that a rod has reached
pub mod variables; // variables.rt: the two variables of a rod, from which a law starts

ghost use Rattle.std.specs.Prelude.{◌≡◌, ◌+◌, ◌-◌, ◌≤◌, ◌<◌, ◌^◌, ltb, nat_abs};
ghost use Rattle.ranges.specs.Ranges.{most_abscissa, most_stress};
ghost use Rattle.units.specs.Kinds.{magnitude};
ghost use Rattle.units.specs.Signs.{is_neg};
ghost use Rattle.curve.specs.Curve.{limit_at};
ghost use Rattle.curve.specs.Sides.{curve_of};
ghost use Rattle.sheet.specs.Sound.{tangent_of};
ghost use Rattle.response.specs.Response.{AbscissaRight, isotropic_moved, kinematic_moved, most_trial, moved_meaning, settled_by};
ghost use Rattle.response.specs.SideFlows.{flow_at, flow_toward, side_flow};

use branch::Branch;
use curve::traction::TractionCurve;
use sheet::Sheet;
use sheet::material::Material;
use units::{Grain, Magnitude, Modulus, Quantity};

// What a flow leaves: the stress, the variable that moved (an abscissa or the kinematic centre), and the tangent modulus there.
#[derive(Clone, Copy)]
struct Flowed {
    stress: Grain,
    variable: Grain,
    tangent: Modulus,
}

// What a pair leaves by the law (SPEC 7.6 to 7.8): its branch, the stress, both variables and the tangent modulus.
#[derive(Clone, Copy)]
pub struct Response {
    pub branch: Branch,
    pub stress: Grain,
    pub first: Grain,
    pub second: Grain,
    pub tangent: Modulus,
}

// What the law moves.
#[derive(Clone, Copy)]
enum Motion {
    Still,
    Tension(Flowed),
    Compression(Flowed),
}

// A trial stress (SPEC 5.3), which lies within the bound of all trials.
#[derive(Clone, Copy)]
pub struct TrialStress {
    pub stress: Grain,
    ghost bounded: { nat_abs stress.0 ≤ most_trial },
}

// The yield limits at the abscissas of a rod, rounded down (SPEC 7.12). They are found once and kept up from pair to pair; one that the law
// hasn't is 0: the law says which there are, and with an Option both would have to be asked.
#[derive(Clone, Copy)]
pub struct Limits {
    pub first: Magnitude,
    pub second: Magnitude,
}

// Whether the trial passes a limit (SPEC 6.6); equality doesn't.
fn passes(trial: Magnitude, limit: Magnitude) -> bool
    ensures { result ≡ ltb limit.0 trial.0 }
{
    limit < trial
}

// A side's new abscissa, where it flows: by the excess of the trial over the yield limit.
fn side_flow(abscissa: Magnitude, limit: Magnitude, trial: Magnitude) -> Option<Magnitude>
    requires { abscissa.0 + trial.0 < 2 ^ 63 }
    ensures { result ≡ side_flow abscissa.0 limit.0 trial.0 }
{
    if !passes(trial, limit) {
        return None;
    }
    Some(abscissa.plus(trial.minus(limit)))
}

// A flow toward compression where `negative` says so, else toward tension (SPEC 7.7).
fn toward(negative: bool, flowed: Flowed) -> Motion
    ensures { result ≡ flow_toward negative flowed }
{
    if negative {
        return Motion::Compression(flowed);
    }
    Motion::Tension(flowed)
}

// What a side leaves that has moved to an abscissa: the stress lies at the limit there, negated in compression.
#[tactic(auto, unfolding(curve::specs::Sides::reading_of))]
fn flow(curve: TractionCurve<'_>, moved: Magnitude, negative: bool) -> Motion
    requires { moved.0 ≤ most_abscissa + most_trial }
    ensures { result ≡ flow_toward negative (flow_at curve.entry.side.now curve.entry.modulus moved negative) }
{
    let reading = curve.at(moved);
    let stress = Grain::of(negative, reading.limit);
    let variable = Grain::of(false, moved);
    toward(
        negative,
        Flowed {
            stress,
            variable,
            tangent: reading.tangent,
        },
    )
}

// The isotropic law on one side of the sheet, with the sign of the trial put back.
fn isotropic(
    curve: TractionCurve<'_>,
    abscissa: Grain,
    limit: Magnitude,
    trial: TrialStress,
) -> Motion
    requires abscissa { AbscissaRight abscissa.0 }
    requires limit { limit.0 ≡ limit_at curve.modulus.0 (curve_of curve.side.now) (nat_abs abscissa.0) }
    ensures { moved_meaning curve.entry.modulus.0 abscissa.0 trial.stress.0 result ≡ isotropic_moved curve.entry.modulus.0 (curve_of curve.entry.side.now) abscissa.0 trial.stress.0 }
{
    let Some(moved) = side_flow(abscissa.magnitude(), limit, trial.stress.magnitude()) else {
        return Motion::Still;
    };
    flow(curve, moved, trial.stress.negative())
}

// The kinematic law: the centre moves toward the trial, and the stress is the radius further than the new centre.
fn kinematic(material: &Material, centre: Grain, trial: TrialStress) -> Motion
    requires { nat_abs centre.0 ≤ most_stress }
    ensures { moved_meaning material.now.sheet.modulus.0 centre.0 trial.stress.0 result ≡ kinematic_moved material.now.sheet.modulus.0 (tangent_of material.now.sheet.tension 0) material.now.sheet.tension.yield_stress.0 centre.0 trial.stress.0 }
{
    let side = &material.sheet.tension;
    let radius = side.yield_stress;
    let distance = trial.stress.minus(centre);
    let size = distance.magnitude();
    if !passes(size, radius) {
        return Motion::Still;
    }
    let tangent = side.segments[0].tangent;
    let negative = distance.negative();
    let shift = size.minus(radius).share(tangent, material.sheet.modulus);
    let moved = centre.plus(Grain::of(negative, shift));
    let stress = moved.plus(Grain::of(negative, radius));
    let flowed = Flowed {
        stress,
        variable: moved,
        tangent,
    };
    toward(negative, flowed)
}

// The law's answer, from what it moved: what didn't move is as it was. No method of `Variables`: it takes what its definition takes, and no limits.
fn settle(sheet: &Sheet, first: Grain, second: Grain, trial: Grain, motion: Motion) -> Response
    ensures { result ≡ settled_by sheet.now first second trial motion }
{
    match motion {
        Motion::Still => Response {
            branch: Branch::Elastic,
            stress: trial,
            first,
            second,
            tangent: sheet.modulus,
        },
        Motion::Tension(flowed) => flowed_to(Branch::Tension, flowed, flowed.variable, second),
        Motion::Compression(flowed) => {
            let moved = flowed.variable;
            if sheet.law.has_second() {
                return flowed_to(Branch::Compression, flowed, first, moved);
            }
            flowed_to(Branch::Compression, flowed, moved, second)
        }
    }
}

// What a flow left, with the variables after it.
fn flowed_to(branch: Branch, flowed: Flowed, first: Grain, second: Grain) -> Response
    ensures { result ≡ record { branch = branch; stress = flowed.stress; first = first; second = second; tangent = flowed.tangent } }
{
    Response {
        branch,
        stress: flowed.stress,
        first,
        second,
        tangent: flowed.tangent,
    }
}
