// A rod that stands on its material, and the trials of pairs on it (SPEC 7.15).
ghost use Rattle.carry.specs.Reaching.{Stands};

use crate::Reached;
use pair::Pair;
use refusals::Reason;
use rod::step::ThermalStrains;
use row::Row;
use sheet::material::Material;

// A rod that passed with its material, and what it has reached.
#[derive(Clone, Copy)]
pub struct Standing<'a> {
    pub material: &'a Material,
    pub reached: Reached,
    pub ghost stands: { Stands material.now.sheet reached },
}

// What an accepted trial comes to: the rod as it would be after the pair, and the row of the pair.
#[derive(Clone, Copy)]
pub struct Carried<'a> {
    pub to: Standing<'a>,
    pub row: Row,
}

impl<'a> Carried<'a> {
    ghost use Rattle.std.specs.Prelude.{◌≡◌};

    // Keeps an accepted trial: its next state is the rod's. A refused one has nothing to keep.
    pub fn keep(self) -> Standing<'a>
        ensures reached { result.reached ≡ self.entry.to.reached }
        ensures material { result.material.now ≡ self.entry.to.material.now }
    {
        self.to
    }
}

impl<'a> Standing<'a> {
    ghost use Rattle.std.specs.Prelude.{◌≡◌, IfOk};
    ghost use Rattle.refusals.specs.Table.{first_of};
    ghost use Rattle.rod.specs.Steps.{advance_of, step_refusals};
    ghost use Rattle.rod.specs.Accepted.{PairAccepted};
    ghost use Rattle.carry.specs.Walk.{pair_answer};
    ghost use Rattle.carry.specs.Trying.{trial_told};

    // Tries a pair: 9, then 10, or the rod carried on.
    pub fn trial(self, pair: Pair) -> Result<Carried<'a>, Reason>
        requires { PairAccepted pair }
        ensures told { trial_told result ≡ first_of (step_refusals self.entry.material.now.sheet self.entry.reached.rod pair) (advance_of self.entry.material.now.sheet self.entry.reached.rod pair) }
        ensures material { IfOk result (λ carried. carried.to.material.now ≡ self.entry.material.now) }
    {
        let material = self.material;
        let Reached {
            rod,
            limits,
            thermal,
        } = self.reached;
        let thermals = ThermalStrains {
            before: thermal,
            after: material.thermal(pair.temperature),
        };
        let advance = rod.step(material, limits, thermals, pair)?;
        let row = advance.row;
        let reached = Reached {
            rod: advance.rod,
            limits: limits.after(material.sheet.law, row.yielded, row.stress),
            thermal: thermals.after,
        };
        let to = Standing { material, reached };
        Ok(Carried { to, row })
    }

    // Tries the pair in some bytes: 8, and then as above.
    pub fn trial_bytes(self, bytes: &[u8]) -> Result<Carried<'a>, Reason>
        ensures told { trial_told result ≡ pair_answer self.entry.material.now.sheet self.entry.reached.rod bytes.now }
        ensures material { IfOk result (λ carried. carried.to.material.now ≡ self.entry.material.now) }
    {
        self.trial(pair::read(bytes)?)
    }
}
