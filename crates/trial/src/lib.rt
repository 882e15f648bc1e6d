// A pair tried on bytes, and the keeping of its trial (SPEC 16). A trial is the single pair, by which nothing of the caller's has moved
// yet; its keeping hands the next state on.
#![tactic(auto)]

ghost use Rattle.std.specs.Prelude.{◌≡◌, length};
ghost use Rattle.refusals.specs.Table.{first_of};
ghost use Rattle.refusals.specs.Reasons.{answer_by, answer_of, number_of};
ghost use Rattle.state.specs.States.{state_length};
ghost use Rattle.tie_rod.specs.Calls.{answer_number, left};
ghost use Rattle.tie_rod.specs.Answers.{reply_meaning};
ghost use Rattle.trial.specs.Trials.{accepted_bytes, keep_leaves, keep_refusals, kept, next_in, refused_bytes, same_bytes, start_in, trial_leaves, trial_left, trial_with};

use refusals::Reason;
use state::STATE_LENGTH;
use tie_rod::{Reply, entry};

// Where everything stands in a trial's bytes (SPEC 16.3): its number in the first, its start, its next state.
const NUMBER_AT: usize = 0;

const START_AT: usize = NUMBER_AT + 1;

const NEXT_AT: usize = START_AT + STATE_LENGTH;

// Bytes of a trial.
pub const TRIAL_LENGTH: usize = NEXT_AT + STATE_LENGTH;

// A refused trial has its number, and nothing to keep.
fn write_refused(reason: Reason, trial: &mut [u8; TRIAL_LENGTH])
    ensures { trial.new ≡ refused_bytes (number_of reason) }
{
    *trial = [0; TRIAL_LENGTH];
    trial[NUMBER_AT] = u8::from(reason);
}

// An accepted trial has number 0, the state that it started from and the one that it came to.
#[tactic(auto, using(crate::proofs::TrialLaws::accepted_written))]
fn write_accepted(start: &[u8], next: &[u8], trial: &mut [u8; TRIAL_LENGTH])
    requires { (length start.now ≡ state_length) × (length next.now ≡ state_length) }
    ensures { trial.new ≡ accepted_bytes start.now next.now }
{
    trial[NUMBER_AT] = 0;
    trial[START_AT..NEXT_AT].copy_from_slice(start);
    trial[NEXT_AT..].copy_from_slice(next);
}

// Tries a pair (SPEC 16.2): answer, row and next state are the single pair's, and the state that was given stays the rod's.
pub fn trial(
    sheet: &[u8],
    state: &[u8],
    pair: &[u8],
    row: &mut [u8],
    next: &mut [u8],
    trial: &mut [u8; TRIAL_LENGTH],
) -> Reply
    ensures { trial_left (left (reply_meaning result) row.new next.new) trial.new ≡ trial_leaves sheet.now state.now (trial_with pair.now row.old next.old) }
{
    let reply = entry::pair_bytes(sheet, state, pair, row, next);
    if let Some(refused) = reply.refused {
        write_refused(refused.reason, trial);
        return reply;
    }
    write_accepted(state, next, trial);
    reply
}

// Whether all of a state's bytes are those of a trial's start.
#[tactic(auto, using(crate::proofs::TrialLaws::pointwise_same))]
fn is_start(tried: &[u8; TRIAL_LENGTH], state: &[u8]) -> bool
    ensures { result ≡ same_bytes state.now (start_in tried.now) }
{
    state == &tried[START_AT..NEXT_AT]
}

// 12 or 15, unless the trial is to be kept (SPEC 16.4).
#[tactic(auto, using(crate::proofs::TrialLaws::keep_stops, crate::proofs::TrialLaws::keep_refused, crate::proofs::TrialLaws::keep_kept, crate::proofs::TrialLaws::keep_elsewhere))]
fn check(tried: &[u8; TRIAL_LENGTH], state: &[u8], next: usize) -> Result<(), Reason>
    ensures { answer_by (λ _. next_in tried.now) result ≡ first_of (keep_refusals tried.now state.now next) (next_in tried.now) }
{
    if next != STATE_LENGTH {
        return Err(Reason::LentBuffer);
    }
    if tried[NUMBER_AT] != 0 || !is_start(tried, state) {
        return Err(Reason::TrialNotOfState);
    }
    Ok(())
}

// Keeps a trial (SPEC 16.5): its next state is handed on, or nothing is written.
#[tactic(auto, using(crate::proofs::TrialLaws::keep_left, crate::proofs::TrialLaws::keep_handed))]
pub fn keep(trial: &[u8; TRIAL_LENGTH], state: &[u8], next: &mut [u8]) -> Result<(), Reason>
    ensures { kept (answer_number (answer_of result)) next.new ≡ keep_leaves trial.now state.now next.old }
{
    check(trial, state, next.len())?;
    next.copy_from_slice(&trial[NEXT_AT..]);
    Ok(())
}
