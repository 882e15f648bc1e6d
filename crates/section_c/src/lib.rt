// A section as C calls it (SPEC 9.10, 15.6): thin above the entry of its name, its answer a number, as include/tie_rod.h says. It has an archive of its own, since in one archive with the
// runs it would make them slower (DECISIONS.md, Speed).
#![tactic(auto)]

ghost use Rattle.std.specs.Prelude.{◌≡◌};
ghost use Rattle.section.specs.Sections.{change_of, section_leaves};
ghost use Rattle.section_c.specs.Answers.{section_seen, section_seen_of};

use section::Member;

// The rods of a section together (SPEC 15).
#[unsafe(no_mangle)]
pub extern "C" fn tie_rod_section(
    sheet: &[u8],
    members: &mut [Member],
    mean: i64,
    curvature: i64,
    temperature: i64,
    force: &mut i64,
    moment: &mut i64,
) -> u64
    ensures { section_seen result force.new moment.new members.new ≡ section_seen_of (section_leaves sheet.now (change_of mean curvature temperature) members.old) }
{
    // Each arm also sets force and moment, so that one function for the number alone would save nothing.
    match section::entry::section(sheet, members, mean, curvature, temperature) {
        Ok(forces) => {
            *force = forces.force;
            *moment = forces.moment;
            0
        }
        Err(refused) => {
            *force = 0;
            *moment = 0;
            refused.in_one_number()
        }
    }
}
