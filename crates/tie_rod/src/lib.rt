// The entries on bytes (SPEC 9): making an unused rod, a forecast, a single pair and a whole run.
#![tactic(auto)]

pub mod entry; // entry.rt: the entries
mod lengths; // lengths.rt: what is decided by lengths alone
pub mod walk; // walk.rt: the pairs, one after another

use refusals::Refused;
use rod::Rod;

// What a call answers: how many pairs were accepted, and what was refused.
#[derive(Clone, Copy)]
pub struct Reply {
    pub accepted: usize,
    pub refused: Option<Refused>,
}

// What a list of pairs came to: its answer, and the state after the last accepted pair.
#[derive(Clone, Copy)]
pub struct Walked {
    pub reply: Reply,
    pub rod: Rod,
}
