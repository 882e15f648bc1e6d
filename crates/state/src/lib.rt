// A rod in bytes (SPEC 3.11): its reader and its writer.
#![tactic(auto)]

mod fields; // fields.rt: the law, and the fields whose reading goes by others
mod layout; // layout.rt: where everything stands in the bytes

ghost use Rattle.std.specs.Prelude.{◌≡◌, take};
ghost use Rattle.refusals.specs.Table.{first_of};
ghost use Rattle.refusals.specs.Reasons.{answer_of};
ghost use Rattle.bits.specs.Layout.{filled, packed};
ghost use Rattle.state.specs.States.{state_field_refusals, state_of, state_refusals};
ghost use Rattle.state.specs.States.{state_bytes, state_layout, state_values, StateFits};

use refusals::Reason;
use rod::Rod;
use units::{Grain, Nano, Tenths};

// Bytes of a state.
pub const STATE_LENGTH: usize = layout::STATE_LENGTH;

// Reads a state.
#[tactic(auto, unfolding(refusals::specs::Table::first_of, crate::specs::States::state_refusals))]
pub fn read(s: &[u8]) -> Result<Rod, Reason>
    ensures { answer_of result ≡ first_of (state_refusals s.now) (state_of s.now) }
{
    if s.len() != STATE_LENGTH {
        return Err(Reason::StateLength);
    }
    read_fields(s)
}

// Each field by `let .. else`, the form that is named for it (DECISIONS.md, Forms).
fn read_fields(s: &[u8]) -> Result<Rod, Reason>
    ensures { answer_of result ≡ first_of (state_field_refusals s.now) (state_of s.now) }
{
    let law = fields::law(s);
    let yielded = layout::YIELDED.is_set(s);
    let Some(_) = layout::ZERO.read_within(s, ranges::ZERO) else {
        return Err(Reason::StateField);
    };
    let Some(strain) = layout::STRAIN.read_within(s, ranges::STRAIN) else {
        return Err(Reason::StateField);
    };
    let Some(temperature) = layout::TEMPERATURE.read_within(s, ranges::TEMPERATURE) else {
        return Err(Reason::StateField);
    };
    let Some(stress) = layout::STRESS.read_within(s, ranges::STRESS) else {
        return Err(Reason::StateField);
    };
    let Some(first) = fields::first(s, law) else {
        return Err(Reason::StateField);
    };
    let Some(second) = fields::second(s, law) else {
        return Err(Reason::StateField);
    };
    let pairs: u64 = layout::PAIRS.read(s);
    let Some(yielded_pairs) = fields::yielded_pairs(s, yielded, pairs) else {
        return Err(Reason::StateField);
    };
    Ok(Rod {
        law,
        yielded,
        strain: Nano(strain),
        temperature: Tenths(temperature),
        stress: Grain(stress),
        first: Grain(first),
        second: Grain(second),
        pairs,
        yielded_pairs,
    })
}

// Law, yielded bit and five zero bits as one byte.
#[tactic(auto, using(bits::proofs::SignLaws::flag_below, law::proofs::LawLaws::number_below_four), unfolding(bits::specs::Layout::widths, bits::specs::Layout::packed))]
fn front(rod: Rod) -> u64
    ensures { result ≡ packed (take 3 (filled state_layout (state_values rod))) }
{
    let marks = (u64::from(rod.law) << layout::YIELDED.width) + u64::from(rod.yielded);
    marks << layout::ZERO.width
}

// The bytes of a rod's state. That the rod fits is asked, and is no fact of its type: definitions make rods of whole numbers of any size.
#[tactic(auto, using(crate::proofs::StateLaws::put_state, bits::proofs::SignLaws::passed))]
pub fn bytes_of(rod: Rod) -> [u8; STATE_LENGTH]
    requires { StateFits rod }
    ensures { result ≡ state_bytes rod }
{
    let mut bytes = [0; STATE_LENGTH];
    layout::FRONT.write(&mut bytes, front(rod));
    layout::STRAIN.write(&mut bytes, rod.strain.0);
    layout::TEMPERATURE.write(&mut bytes, rod.temperature.0);
    layout::STRESS.write(&mut bytes, rod.stress.0);
    layout::FIRST.write(&mut bytes, rod.first.0);
    layout::SECOND.write(&mut bytes, rod.second.0);
    layout::PAIRS.write(&mut bytes, rod.pairs);
    layout::YIELDED_PAIRS.write(&mut bytes, rod.yielded_pairs);
    bytes
}
