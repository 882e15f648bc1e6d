// A section (SPEC 15): rods of one sheet tied to one plate, moved together or not at all.
#![tactic(auto)]

ghost use Rattle.section.specs.Sections.{ChangeRight};

pub mod entry; // entry.rt: the entry
mod each; // each.rt: one rod of a section, by value
mod together; // together.rt: all rods, decided first and then stored

use sheet::material::Material;
use state::STATE_LENGTH;
use units::{Curvature, Nano, Tenths};

// A rod of a section: its area in mm², its offset in mm, and its state. Firmware lends these, so they are laid out as C has them.
#[repr(C)]
#[derive(Clone, Copy)]
pub struct Member {
    pub area: u64,
    pub offset: i64,
    pub state: [u8; STATE_LENGTH],
}

// What a section's plate does: mean strain and curvature change, and the temperature is a new one.
#[derive(Clone, Copy)]
pub struct Change {
    pub mean: Nano,
    pub curvature: Curvature,
    pub temperature: Tenths,
}

// What every rod of a call is given: the material, and the change.
#[derive(Clone, Copy)]
pub struct Movement<'a> {
    pub material: &'a Material,
    pub change: Change,
    pub ghost right: { ChangeRight change },
}

// What the rods looked at so far add up to, and how many there were: the next one's place goes by it.
#[derive(Clone, Copy)]
pub struct Sums {
    pub force: i64,
    pub moment: i64,
    pub seen: usize,
}

// What a section that moves answers: force in 10⁻³ N and moment in 10⁻³ N mm.
#[derive(Clone, Copy)]
pub struct Forces {
    pub force: i64,
    pub moment: i64,
}
