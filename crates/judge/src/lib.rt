// Judging a sheet and a state (SPEC 8.9): 1 to 6 and 13, or the sheet and the rod that passed.
#![tactic(auto)]

pub mod judged; // judged.rt: a sheet and a state that passed together

ghost use Rattle.std.specs.Prelude.{◌≡◌};
ghost use Rattle.refusals.specs.Table.{first_of};
ghost use Rattle.state.specs.States.{state_of};
ghost use Rattle.judge.specs.Standing.{holder_refusals, ready_of, standing_meaning, standing_refusals};

use carry::Reached;
use carry::standing::Standing;
use refusals::Reason;
use rod::against;
use sheet::material::Material;

// Refusals 4 to 6, against a sheet that passed.
pub fn judge_state<'a>(material: &'a Material, state: &[u8]) -> Result<Standing<'a>, Reason>
    ensures { standing_meaning result ≡ first_of (holder_refusals material.now.sheet state.now) (record { sheet = material.now.sheet; rod = state_of state.now }) }
{
    let rod = state::read(state)?;
    let reached = Reached::of(material, rod);
    if !against::belongs(material, rod, reached.limits) {
        return Err(Reason::StateOfAnotherSheet);
    }
    Ok(Standing { material, reached })
}

// Refusals 1 to 6 and 13, of any bytes. The sheet is read into a lent material, so that it isn't copied from answer to answer; what
// stands in it beside a refusal is left open.
#[tactic(auto, using(crate::proofs::JudgeLaws::sheet_stops, crate::proofs::JudgeLaws::sheet_goes_on))]
pub fn judge<'a>(
    sheet: &[u8],
    state: &[u8],
    material: &'a mut Material,
) -> Result<Standing<'a>, Reason>
    ensures { standing_meaning result ≡ first_of (standing_refusals sheet.now state.now) (ready_of sheet.now state.now) }
{
    Material::read_in(sheet, material)?;
    judge_state(material, state)
}
