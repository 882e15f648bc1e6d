// The entry of a section (SPEC 15), and what is decided before its first rod.
ghost use Rattle.std.specs.Prelude.{◌≡◌};
ghost use Rattle.section.specs.Sections.{call_right, change_of, reply_meaning, section_leaves, section_left};
ghost use Rattle.section.specs.Tallies.{Opened};

use crate::{Change, Forces, Member, Movement, together};
use refusals::{Reason, Refused};
use sheet::material::Material;
use units::{Curvature, Nano, Tenths};

// How many rods there are, and the change, are in their ranges.
#[tactic(auto, unfolding(crate::specs::Sections::call_right))]
fn call_right(members: usize, change: Change) -> bool
    ensures { result ≡ call_right members change }
{
    ranges::RODS.hold(members as u64)
        && ranges::CHANGE.hold(change.mean.0)
        && ranges::CURVATURE.hold(change.curvature.0)
}

// What is decided before the first rod: the sheet's numbers, and 14 as far as the call itself has it.
#[tactic(auto, using(crate::proofs::Openings::opened_refused, crate::proofs::Openings::opened_passes, crate::proofs::Openings::change_right, refusals::proofs::FirstLaws::stops_first, refusals::proofs::FirstLaws::goes_on, sheet::proofs::Passed::passed_sound), unfolding(crate::specs::Tallies::open_refusals, refusals::specs::Table::first_of))]
fn open<'a>(
    sheet: &[u8],
    members: usize,
    change: Change,
    material: &'a mut Material,
) -> Result<Movement<'a>, Reason>
    ensures { Opened sheet.now members change result }
{
    Material::read_in(sheet, material)?;
    if !call_right(members, change) {
        return Err(Reason::SectionField);
    }
    Ok(Movement { material, change })
}

// Moves the rods of a section together (SPEC 15): every byte of every member is settled by its contract.
pub fn section(
    sheet: &[u8],
    members: &mut [Member],
    mean: i64,
    curvature: i64,
    temperature: i64,
) -> Result<Forces, Refused>
    ensures { section_left (reply_meaning result) members.new ≡ section_leaves sheet.now (change_of mean curvature temperature) members.old }
{
    let change = Change {
        mean: Nano(mean),
        curvature: Curvature(curvature),
        temperature: Tenths(temperature),
    };
    let mut material = Material::unread();
    let movement = open(sheet, members.len(), change, &mut material)?;
    let sums = together::settle(members, &movement)?;
    Ok(Forces {
        force: sums.force,
        moment: sums.moment,
    })
}
