// The law of a state, and the fields whose reading goes by it or by other fields.
ghost use Rattle.std.specs.Prelude.{◌≡◌};
ghost use Rattle.bits.specs.Field.{some_if};
ghost use Rattle.rod.specs.Variables.{first_right, second_right};
ghost use Rattle.rod.specs.InRange.{counts_right};
ghost use Rattle.state.specs.States.{state_of};

use crate::layout;
use bits::Bounds;
use law::Law;
use rod::variables;

#[tactic(auto, using(bits::proofs::FieldLaws::field_below))]
pub fn law(s: &[u8]) -> Law
    ensures { result ≡ (state_of s.now).law }
{
    Law::of(layout::LAW.read(s))
}

pub fn first(s: &[u8], law: Law) -> Option<i64>
    ensures { result ≡ some_if (first_right law (state_of s.now).first.0) (state_of s.now).first.0 }
{
    layout::FIRST.read_within(s, variables::first_bounds(law))
}

// Any second variable is read where the law has none (SPEC 8.3): then it has no bounds, and is no field within some.
#[tactic(auto, using(bits::proofs::LayoutLaws::word_of_field), unfolding(bits::specs::Field::some_if))]
pub fn second(s: &[u8], law: Law) -> Option<i64>
    ensures { result ≡ some_if (second_right law (state_of s.now).second.0) (state_of s.now).second.0 }
{
    if law.has_second() {
        return layout::SECOND.read_within(s, ranges::ABSCISSA);
    }
    Some(layout::SECOND.read(s))
}

// At most as many yielded pairs as pairs, and at least one where the last pair yielded.
pub fn yielded_pairs(s: &[u8], yielded: bool, pairs: u64) -> Option<u64>
    ensures { result ≡ some_if (counts_right yielded pairs (state_of s.now).yielded_pairs) (state_of s.now).yielded_pairs }
{
    layout::YIELDED_PAIRS.read_within(
        s,
        Bounds {
            least: u64::from(yielded),
            most: pairs,
        },
    )
}
