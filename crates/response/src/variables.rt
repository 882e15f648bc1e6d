// The two variables of a rod of some material, with the yield limits at them (SPEC 7.12): what a law starts from.
ghost use Rattle.std.specs.Prelude.{◌≡◌};
ghost use Rattle.response.specs.Response.{VariablesRight, outcome_of, response_meaning, settled_by};
ghost use Rattle.response.specs.Limits.{limits_of};

use crate::{Limits, Motion, Response, TrialStress};
use law::Law;
use sheet::material::Material;
use units::{Grain, Quantity};

#[derive(Clone, Copy)]
pub struct Variables<'a> {
    pub material: &'a Material,
    pub first: Grain,
    pub second: Grain,
    pub limits: Limits,
    ghost reached: { limits ≡ limits_of material.now.sheet first.0 second.0 },
}

impl<'a> Variables<'a> {
    // What the sheet's law moves. That the variables are in their ranges is asked here and in `respond` alone.
    fn moved(self, trial: TrialStress) -> Motion
        requires { VariablesRight self.material.now.sheet.law self.first.0 self.second.0 }
        ensures { response_meaning (settled_by self.entry.material.now.sheet self.entry.first self.entry.second trial.stress result) ≡ outcome_of self.entry.material.now.sheet self.entry.first.0 self.entry.second.0 trial.stress.0 }
    {
        let material = self.material;
        let limits = self.limits;
        match material.sheet.law {
            Law::IsotropicLine | Law::IsotropicCurve => {
                crate::isotropic(material.tension(), self.first, limits.first, trial)
            }
            Law::Kinematic => crate::kinematic(material, self.first, trial),
            // The side that the trial lies on. With a guard here, and one arm for tension, a proof doesn't know which law that arm has.
            Law::Asymmetric => {
                if trial.stress.negative() {
                    return crate::isotropic(
                        material.compression(),
                        self.second,
                        limits.second,
                        trial,
                    );
                }
                crate::isotropic(material.tension(), self.first, limits.first, trial)
            }
        }
    }

    // The answer of the sheet's law.
    pub fn respond(self, trial: TrialStress) -> Response
        requires { VariablesRight self.material.now.sheet.law self.first.0 self.second.0 }
        ensures { response_meaning result ≡ outcome_of self.entry.material.now.sheet self.entry.first.0 self.entry.second.0 trial.stress.0 }
    {
        crate::settle(
            &self.material.sheet,
            self.first,
            self.second,
            trial.stress,
            self.moved(trial),
        )
    }
}
