// The entries as C calls them (SPEC 9.10): each is thin above the entry of its name. C is told numbers, as include/tie_rod.h says.
#![tactic(auto)]

ghost use Rattle.std.specs.Prelude.{◌≡◌, ◌^◌, ◌<◌};
ghost use Rattle.refusals.specs.Table.{in_one_number};
ghost use Rattle.refusals.specs.Reasons.{answer_of, number_in, place_in};
ghost use Rattle.tie_rod.specs.Calls.{answer_number, call, call_leaves, forecast_answer, run, single, unused_answer, unused_left};
ghost use Rattle.trial.specs.Trials.{keep_leaves, kept, trial_leaves, trial_with};
ghost use Rattle.tie_rod_c.specs.Answers.{forecast_in_one_number, seen, seen_of, trial_seen, trial_seen_of};

use refusals::{Reason, Refused};
use state::STATE_LENGTH;
use tie_rod::entry;
use trial::TRIAL_LENGTH;

// The answer of a call as one number, 0 where nothing was refused.
fn in_one_number(refused: Option<Refused>) -> u64
    requires { place_in refused < 2 ^ 48 }
    ensures { result ≡ in_one_number (number_in refused) (place_in refused) }
{
    match refused {
        Some(refused) => refused.in_one_number(),
        None => 0,
    }
}

// The same where there is no place, and no bound of one to be shown.
fn number(answer: Result<(), Reason>) -> u64
    ensures { result ≡ answer_number (answer_of answer) }
{
    match answer {
        Ok(()) => 0,
        Err(reason) => u64::from(reason),
    }
}

// A whole run (SPEC 9.6).
#[tactic(auto, using(tie_rod::proofs::Numbers::reply_small, tie_rod::proofs::Numbers::call_small))]
#[unsafe(no_mangle)]
pub extern "C" fn tie_rod_run(
    sheet: &[u8],
    state: &[u8],
    pairs: &[u8],
    rows: &mut [u8],
    next: &mut [u8],
) -> u64
    ensures { seen result rows.new next.new ≡ seen_of (call_leaves sheet.now state.now (call run pairs.now rows.old next.old)) }
{
    in_one_number(entry::run_bytes(sheet, state, pairs, rows, next).refused)
}

// A single pair (SPEC 9.6).
#[tactic(auto, using(tie_rod::proofs::Numbers::reply_small, tie_rod::proofs::Numbers::call_small))]
#[unsafe(no_mangle)]
pub extern "C" fn tie_rod_pair(
    sheet: &[u8],
    state: &[u8],
    pair: &[u8],
    rows: &mut [u8],
    next: &mut [u8],
) -> u64
    ensures { seen result rows.new next.new ≡ seen_of (call_leaves sheet.now state.now (call single pair.now rows.old next.old)) }
{
    in_one_number(entry::pair_bytes(sheet, state, pair, rows, next).refused)
}

// A trial (SPEC 16.2, 16.6).
#[tactic(auto, using(tie_rod::proofs::Numbers::reply_small, tie_rod::proofs::Numbers::call_small, trial::proofs::TrialLaws::trial_single))]
#[unsafe(no_mangle)]
pub extern "C" fn tie_rod_trial(
    sheet: &[u8],
    state: &[u8],
    pair: &[u8],
    row: &mut [u8],
    next: &mut [u8],
    trial: &mut [u8; TRIAL_LENGTH],
) -> u64
    ensures { trial_seen (seen result row.new next.new) trial.new ≡ trial_seen_of (trial_leaves sheet.now state.now (trial_with pair.now row.old next.old)) }
{
    in_one_number(trial::trial(sheet, state, pair, row, next, trial).refused)
}

// The keeping of a trial (SPEC 16.5, 16.6). Its answer has no place.
#[unsafe(no_mangle)]
pub extern "C" fn tie_rod_keep(trial: &[u8; TRIAL_LENGTH], state: &[u8], next: &mut [u8]) -> u64
    ensures { kept result next.new ≡ keep_leaves trial.now state.now next.old }
{
    number(trial::keep(trial, state, next))
}

// The tangent modulus that a state forecasts (SPEC 9.8).
#[tactic(auto, using(crate::proofs::Bounds::forecast_small))]
#[unsafe(no_mangle)]
pub extern "C" fn tie_rod_forecast(sheet: &[u8], state: &[u8]) -> u64
    ensures { result ≡ forecast_in_one_number (forecast_answer sheet.now state.now) }
{
    match entry::forecast(sheet, state) {
        Ok(tangent) => 256 * tangent.0,
        Err(reason) => u64::from(reason),
    }
}

// An unused rod (SPEC 9.9).
#[unsafe(no_mangle)]
pub extern "C" fn tie_rod_unused(sheet: &[u8], state: &mut [u8; STATE_LENGTH]) -> u64
    ensures value { result ≡ answer_number (unused_answer sheet.now) }
    ensures state { state.new ≡ unused_left (unused_answer sheet.now) }
{
    number(entry::unused(sheet, state))
}
