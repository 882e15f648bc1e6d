// All rods of a section: decided for every one first, and then stored (SPEC 15.7).
ghost use Rattle.std.specs.Prelude.{◌≡◌, length};
ghost use Rattle.section.specs.Tallies.{GoesOn, bare_tally, next_all, settled_after, tally_all, tally_meaning};

use crate::{Member, Movement, Sums, each};
use refusals::Refused;

// Decides for every rod; none is moved.
#[tactic(auto, using(crate::proofs::Tallying::tally_to_none, crate::proofs::Tallying::tally_to_more, crate::proofs::Tallying::tally_to_all, crate::proofs::Tallying::ready_to))]
pub(crate) fn decide(members: &[Member], movement: &Movement) -> Result<Sums, Refused>
    requires { GoesOn (length members.now) (bare_tally 0 0) }
    ensures { tally_meaning result ≡ tally_all movement.now (bare_tally 0 0) members.now }
{
    let mut tally = Ok(Sums {
        force: 0,
        moment: 0,
        seen: 0,
    });
    for member in members {
        tally = each::tally(tally, *member, movement);
    }
    tally
}

// Moves every rod.
#[tactic(auto, using(crate::proofs::Stepwise::map_to_none, crate::proofs::Stepwise::map_to_more, crate::proofs::Stepwise::map_to_all))]
pub(crate) fn store(members: &mut [Member], movement: &Movement)
    ensures { members.new ≡ next_all movement.now members.old }
{
    for member in members.iter_mut() {
        *member = each::next(*member, movement);
    }
}

// Moves every rod where none is refused, and else none.
#[tactic(auto, using(crate::proofs::Tallying::settled_kept, crate::proofs::Tallying::settled_moved))]
pub(crate) fn settle(members: &mut [Member], movement: &Movement) -> Result<Sums, Refused>
    requires { GoesOn (length members.old) (bare_tally 0 0) }
    ensures tally { tally_meaning result ≡ tally_all movement.now (bare_tally 0 0) members.old }
    ensures members { members.new ≡ settled_after movement.now (bare_tally 0 0) members.old }
{
    let sums = decide(members, movement)?;
    store(members, movement);
    Ok(sums)
}
