// Another firm's table beside our rows (SPEC 17.3 to 17.5).
ghost use Rattle.std.specs.Prelude.{◌≡◌, ◌+◌, ◌^◌, ◌≤◌, ◌<◌, nat_abs};
ghost use Rattle.refusals.specs.Table.{first_of};
ghost use Rattle.refusals.specs.Reasons.{answer_by};
ghost use Rattle.ranges.specs.Ranges.{most_pairs};
ghost use Rattle.carry.specs.Walk.{walk};
ghost use Rattle.tie_rod.specs.Calls.{count_in, pairs_in};
ghost use Rattle.grade.specs.Grades.{CasesApart, agrees, grade_meaning, grading, grading_refusals, stress_at};
ghost use Rattle.grade.specs.Comparing.{compared_of, with_row};

use crate::Grade;
use carry::standing::Standing;
use refusals::{Reason, Refused};
use row::Row;
use units::{Grain, Quantity};

// Whether a stress of theirs lies within the tolerance of ours.
fn agrees(theirs: Grain, ours: Grain, tolerance: Grain) -> bool
    requires { nat_abs theirs.0 + nat_abs ours.0 < 2 ^ 63 }
    ensures { result ≡ agrees tolerance.0 theirs.0 ours.0 }
{
    let difference = theirs.minus(ours);
    let far = Grain::of(false, difference.magnitude());
    far <= tolerance
}

// What is graded beside sheet and state: the pairs, which are few enough by `pair::count`, the rows that the table has of them, and how far
// a stress may lie from ours.
#[derive(Clone, Copy)]
pub(crate) struct Table<'a> {
    pub pairs: &'a [u8],
    pub rows: &'a [u8],
    pub tolerance: i64,
    pub ghost few: { count_in pairs.now ≤ most_pairs },
}

impl<'a> Table<'a> {
    // Whether the rows are as many as the pairs, and the tolerance in its range (SPEC 17.5).
    #[tactic(auto, unfolding(refusals::specs::Table::first_of, crate::specs::Grades::grading_refusals))]
    pub(crate) fn check(self) -> Result<(), Reason>
        ensures { answer_by (λ _. self.entry.tolerance) result ≡ first_of (grading_refusals (grading self.entry.pairs.now self.entry.rows.now self.entry.tolerance)) self.entry.tolerance }
    {
        let count = self.pairs.len() / pair::PAIR_LENGTH;
        if self.rows.len() != row::ROW_LENGTH * count {
            return Err(Reason::TableLength);
        }
        if !ranges::TOLERANCE.hold(self.tolerance) {
            return Err(Reason::Tolerance);
        }
        Ok(())
    }

    // The grade with the row that comes after i others compared too: it names that row only if it is the first outside the tolerance.
    #[tactic(auto, using(crate::proofs::GradeLaws::their_stress_small))]
    fn graded(self, grade: Grade, ours: Grain, i: usize) -> Grade
        requires { (i < 2 ^ 52) × (nat_abs ours.0 < 2 ^ 62) }
        ensures { result ≡ with_row grade (agrees self.entry.tolerance (stress_at self.entry.rows.now i) ours.0) i }
    {
        let theirs = Row::stress_at(self.rows, i);
        let near = agrees(theirs, ours, Grain(self.tolerance));
        match grade {
            Grade::Accepted if !near => Grade::Differs(i + 1),
            _ => grade,
        }
    }

    // Carries the rod over the pairs, and compares each row with theirs as it is made.
    pub(crate) fn compare(self, start: Standing) -> Result<Grade, Refused>
        ensures told { grade_meaning result ≡ compared_of self.entry.tolerance self.entry.rows.now (walk start.entry.material.now.sheet start.entry.reached.rod (pairs_in self.entry.pairs.now)) }
        ensures apart { CasesApart result }
    {
        let mut grade = Grade::Accepted;
        let mut visit = |row: Row, i| grade = self.graded(grade, row.stress, i);
        let walked = tie_rod::walk::walk(start, self.pairs, &mut visit);
        match walked.reply.refused {
            None => Ok(grade),
            Some(refused) => Err(refused),
        }
    }
}
