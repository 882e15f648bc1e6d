// A sheet and a state that passed together.
ghost use Rattle.carry.specs.Reaching.{Stands};

use carry::Reached;
use carry::standing::Standing;
use refusals::Reason;
use sheet::material::Material;

// The material, and what its rod has reached.
#[derive(Clone, Copy)]
pub struct Judged {
    pub material: Material,
    pub reached: Reached,
    pub ghost stands: { Stands material.sheet reached },
}

impl Judged {
    ghost use Rattle.std.specs.Prelude.{◌≡◌};
    ghost use Rattle.refusals.specs.Table.{first_of};
    ghost use Rattle.judge.specs.Standing.{judged_meaning, ready_of, standing_refusals};

    // Judges a sheet and a state, and answers both by value.
    pub fn read(sheet: &[u8], state: &[u8]) -> Result<Judged, Reason>
        ensures { judged_meaning result ≡ first_of (standing_refusals sheet.now state.now) (ready_of sheet.now state.now) }
    {
        let mut material = Material::unread();
        let standing = crate::judge(sheet, state, &mut material)?;
        Ok(Judged {
            material: *standing.material,
            reached: standing.reached,
        })
    }

    // The rod on its material.
    pub fn standing(&self) -> Standing<'_>
        ensures material { result.material.now ≡ self.now.material }
        ensures reached { result.reached ≡ self.now.reached }
    {
        Standing {
            material: &self.material,
            reached: self.reached,
        }
    }
}
