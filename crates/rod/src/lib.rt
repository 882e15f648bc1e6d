// A rod: what it remembers, by value.
#![tactic(auto)]

use law::Law;
use units::{Grain, Nano, Tenths};

pub mod against; // against.rt: a rod against a sheet
pub mod forecast; // forecast.rt: the tangent modulus to expect
pub mod step; // step.rt: one pair
mod unused; // unused.rt: the rod of a sheet before its first pair
pub mod variables; // variables.rt: what the two variables are under each law

// `yielded` is the last pair's. `first` is an abscissa or the kinematic centre, `second` the compression abscissa, or 0:
// the law says which, and the layout has both for every law.
#[derive(Clone, Copy)]
pub struct Rod {
    pub law: Law,
    pub yielded: bool,
    pub strain: Nano,
    pub temperature: Tenths,
    pub stress: Grain,
    pub first: Grain,
    pub second: Grain,
    pub pairs: u64,
    pub yielded_pairs: u64,
}
