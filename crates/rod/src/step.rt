// One pair (SPEC 7.9, 7.10): a rod is carried from state to state.
ghost use Rattle.std.specs.Prelude.{◌≡◌, true, ◌+◌, ◌≤◌, ◌<◌, ◌^◌, nat_abs};
ghost use Rattle.refusals.specs.Table.{first_of};
ghost use Rattle.refusals.specs.Reasons.{answer_of};
ghost use Rattle.ranges.specs.Ranges.{around, most_count, most_strain, most_stress};
ghost use Rattle.units.specs.Kinds.{grain};
ghost use Rattle.response.specs.Response.{response_meaning};
ghost use Rattle.response.specs.Limits.{limits_of};
ghost use Rattle.rod.specs.Steps.{advance_by, advance_of, leaves_range, step_refusals, thermal_strains_of, trial_of};
ghost use Rattle.rod.specs.Accepted.{Accepted, PairAccepted};

use crate::{Rod, variables};
use pair::Pair;
use refusals::Reason;
use response::variables::Variables;
use response::{Limits, Response, TrialStress};
use row::Row;
use sheet::material::Material;
use units::{Nano, Quantity, Scaled};

// The thermal strains before and after a pair (SPEC 5.1). Each is found once and goes along with the rod.
#[derive(Clone, Copy)]
pub struct ThermalStrains {
    pub before: Nano,
    pub after: Nano,
}

// The next state, with the row of the pair.
#[derive(Clone, Copy)]
pub struct Advance {
    pub rod: Rod,
    pub row: Row,
}

// A rod that goes over a pair under its sheet, with the thermal strains at both temperatures.
#[derive(Clone, Copy)]
struct Step<'a> {
    material: &'a Material,
    rod: Rod,
    thermals: ThermalStrains,
    pair: Pair,
    ghost accepted: { Accepted material.now.sheet rod },
    ghost pair_accepted: { PairAccepted pair },
    ghost thermals_own: { thermals ≡ thermal_strains_of material.now.sheet rod pair },
}

// Whether a strain lies in its range.
fn strain_right(strain: Nano) -> bool
    ensures { result ≡ around most_strain strain.0 }
{
    ranges::STRAIN.hold(strain.0)
}

// Whether a stress, a variable or the count of pairs would leave its range (SPEC 8.5).
#[tactic(auto, unfolding(crate::specs::Steps::leaves_range))]
fn leaves_range(rod: Rod, response: Response) -> bool
    ensures { result ≡ leaves_range rod response.stress.0 response.first.0 response.second.0 }
{
    let stays = variables::stress_right(response.stress)
        && variables::first_right(rod.law, response.first)
        && variables::second_right(rod.law, response.second)
        && rod.pairs < ranges::MOST_COUNT;
    !stays
}

impl<'a> Step<'a> {
    // The trial stress (SPEC 5.3).
    fn trial_stress(self) -> TrialStress
        ensures { result.stress ≡ grain (trial_of self.entry.material.now.sheet self.entry.rod self.entry.pair) }
    {
        let thermal = self.thermals.after.minus(self.thermals.before);
        let elastic = self.pair.change.minus(thermal);
        TrialStress {
            stress: self
                .rod
                .stress
                .plus(elastic.times(self.material.sheet.modulus)),
        }
    }

    // The next state and the row, from the new strain and what the law left.
    fn advance(self, response: Response) -> Advance
        requires { (nat_abs response.stress.0 ≤ most_stress) × (self.rod.pairs + 1 ≤ most_count) }
        ensures { result ≡ advance_by self.entry.material.now.sheet self.entry.rod self.entry.pair (response_meaning response) }
    {
        let rod = self.rod;
        let stress = response.stress;
        let yielded = response.branch.yielded();
        let strain = rod.strain.plus(self.pair.change);
        let mechanical = strain.minus(self.thermals.after);
        let plastic = mechanical.times(self.material.sheet.modulus).minus(stress);
        let next = Rod {
            law: rod.law,
            yielded,
            strain,
            temperature: self.pair.temperature,
            stress,
            first: response.first,
            second: response.second,
            pairs: rod.pairs + 1,
            yielded_pairs: rod.yielded_pairs + u64::from(yielded),
        };
        let row = Row {
            yielded,
            branch: response.branch,
            tangent: response.tangent,
            stress,
            plastic,
        };
        Advance { rod: next, row }
    }
}

impl Rod {
    // Carries the rod over one pair, or refuses it: 9, then 10. The limits are those at its variables, the thermal strains
    // those at its temperature and the pair's.
    pub fn step(
        self,
        material: &Material,
        limits: Limits,
        thermals: ThermalStrains,
        pair: Pair,
    ) -> Result<Advance, Reason>
        requires accepted { Accepted material.now.sheet self × PairAccepted pair }
        requires limits { limits ≡ limits_of material.now.sheet self.first.0 self.second.0 }
        requires thermals { thermals ≡ thermal_strains_of material.now.sheet self pair }
        ensures { answer_of result ≡ first_of (step_refusals material.now.sheet self pair) (advance_of material.now.sheet self pair) }
    {
        let strain = self.strain.plus(pair.change);
        if !strain_right(strain) {
            return Err(Reason::StrainLeaves);
        }
        let step = Step {
            material,
            rod: self,
            thermals,
            pair,
        };
        let variables = Variables {
            material,
            first: self.first,
            second: self.second,
            limits,
        };
        let response = variables.respond(step.trial_stress());
        if leaves_range(self, response) {
            return Err(Reason::SteelLeaves);
        }
        Ok(step.advance(response))
    }
}
