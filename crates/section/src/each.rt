// One rod of a section, by value (SPEC 15.4, 15.5, 15.7): what it adds to the tally, and what it becomes.
ghost use Rattle.std.specs.Prelude.{◌≡◌, true, ◌≤◌, nat_abs, Ok};
ghost use Rattle.ranges.specs.Ranges.{most_stress};
ghost use Rattle.state.specs.States.{StateFits};
ghost use Rattle.carry.specs.Trying.{trial_told};
ghost use Rattle.section.specs.Sections.{ChangeRight, cut_stress, member_answer, member_pair, member_right, with_state};
ghost use Rattle.section.specs.Tallies.{GoesOn, Room, added_to, next_of, sections_own, tally_meaning, tally_of};

use crate::{Change, Member, Movement, Sums};
use carry::standing::Carried;
use pair::Pair;
use refusals::{Reason, Refused};
use rod::Rod;
use units::{Grain, Quantity};

// Area and offset are in their ranges. It is asked where it is needed, and is no fact of `Member`, which C lends as it is.
#[tactic(auto, unfolding(crate::specs::Sections::member_right))]
fn right(member: Member) -> bool
    ensures { result ≡ member_right member }
{
    ranges::AREA.hold(member.area) && ranges::OFFSET.hold(member.offset)
}

// The pair that a change is to a rod at an offset (SPEC 15.3).
fn pair_at(change: Change, member: Member) -> Pair
    requires { ChangeRight change × (member_right member ≡ true) }
    ensures { result ≡ member_pair change member }
{
    let bent = change.curvature.strain_at(member.offset);
    let strain = change.mean.plus(bent);
    Pair {
        change: strain,
        temperature: change.temperature,
    }
}

// Tries a rod as a single pair does (SPEC 15.4): 5 and 6 of its state, 8 of the pair, 9 and 10 of the step. Movement and member come side by
// side, here and below: one is lent by the call, the other is one of its list.
fn tried<'a>(movement: &Movement<'a>, member: Member) -> Result<Carried<'a>, Reason>
    requires { member_right member ≡ true }
    ensures { trial_told result ≡ member_answer movement.now.material.now.sheet movement.now.change member }
{
    let standing = judge::judge_state(movement.material, &member.state)?;
    let pair = pair_at(movement.change, member);
    if !pair.in_range() {
        return Err(Reason::PairField);
    }
    standing.trial(pair)
}

// A stress in whole 10⁻³ MPa, rounded toward zero (SPEC 15.5): the magnitude is divided, and the sign put back.
fn cut(stress: Grain) -> i64
    ensures { result ≡ cut_stress stress.0 }
{
    let size = stress.magnitude();
    let whole = size.0 / ranges::GRAINS;
    units::with_sign(stress.negative(), whole)
}

// The sums with the parts of one rod more, whose new stress this is.
fn added(sums: Sums, member: Member, stress: Grain) -> Sums
    requires { Room 1 (tally_meaning (Ok sums)) × (member_right member ≡ true) × (nat_abs stress.0 ≤ most_stress) }
    ensures { tally_meaning (Ok result) ≡ added_to (tally_meaning (Ok sums)) member stress.0 }
{
    let area = member.area as i64;
    let force = cut(stress) * area;
    let moment = force * member.offset;
    Sums {
        force: sums.force + force,
        moment: sums.moment + moment,
        seen: sums.seen + 1,
    }
}

// A number of the section's own has no place, which is 0 as C is told, and stands.
#[tactic(auto, using(refusals::proofs::ReasonLaws::reason_numbered), unfolding(crate::specs::Tallies::sections_own))]
fn sections_own(tally: Result<Sums, Refused>) -> bool
    ensures { result ≡ sections_own (tally_meaning tally) }
{
    match tally {
        Ok(_) => false,
        Err(refused) => refused.place == 0,
    }
}

// The tally with one rod more. 14 for a later member goes before the number of a rod seen already.
#[tactic(auto, unfolding(crate::specs::Tallies::tally_of))]
pub(crate) fn tally(
    tally: Result<Sums, Refused>,
    member: Member,
    movement: &Movement,
) -> Result<Sums, Refused>
    requires { GoesOn 1 (tally_meaning tally) }
    ensures { tally_meaning result ≡ tally_of movement.now (tally_meaning tally) member }
{
    if sections_own(tally) {
        return tally;
    }
    if !right(member) {
        return Err(Refused::from(Reason::SectionField));
    }
    let sums = tally?;
    match tried(movement, member) {
        Ok(carried) => Ok(added(sums, member, carried.to.reached.rod.stress)),
        Err(reason) => Err(Refused {
            reason,
            place: sums.seen + 1,
        }),
    }
}

// A member with the state of a rod.
fn with_state(member: Member, rod: Rod) -> Member
    requires { StateFits rod }
    ensures { result ≡ with_state member rod }
{
    Member {
        state: state::bytes_of(rod),
        ..member
    }
}

// A member after a call: its trial is kept and stored. One that is refused stays; `settle` doesn't come here then.
#[tactic(auto, unfolding(crate::specs::Tallies::next_of))]
pub(crate) fn next(member: Member, movement: &Movement) -> Member
    ensures { result ≡ next_of movement.now member }
{
    if !right(member) {
        return member;
    }
    match tried(movement, member) {
        Ok(carried) => with_state(member, carried.keep().reached.rod),
        Err(_) => member,
    }
}
