// Grading another firm's table (SPEC 17): whether each of their stresses lies within a tolerance of ours. A row of ours is compared as it
// is made, and none is stored.
#![tactic(auto)]

ghost use Rattle.std.specs.Prelude.{◌≡◌};
ghost use Rattle.grade.specs.Grades.{row_told};

pub mod entry; // entry.rt: the entry
mod table; // table.rt: their rows beside ours

// What a grading that isn't refused answers: all rows are within the tolerance, or the first, counted from 1, that isn't. No Option, in which
// None would have to be read as the good verdict.
#[derive(Clone, Copy, PartialEq, Eq)]
pub enum Grade {
    Accepted,
    Differs(usize),
}

impl Grade {
    // The first row that isn't within the tolerance, 0 where there is none, as C is told it (SPEC 17.6).
    pub fn row(self) -> usize
        ensures { result ≡ row_told self }
    {
        match self {
            Grade::Accepted => 0,
            Grade::Differs(row) => row,
        }
    }
}
