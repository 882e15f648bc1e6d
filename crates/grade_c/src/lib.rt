// A grading as C calls it (SPEC 9.10, 17.6): thin above the entry of its name, its answer a number, as include/tie_rod.h says. It has an archive of its own, since in one archive with the
// runs it would make them slower (DECISIONS.md, Speed).
#![tactic(auto)]

ghost use Rattle.std.specs.Prelude.{◌≡◌};
ghost use Rattle.grade.specs.Grades.{grade_of, grading};
ghost use Rattle.grade_c.specs.Answers.{grade_seen, grade_seen_of};

// Grades another firm's table (SPEC 17).
#[unsafe(no_mangle)]
pub extern "C" fn tie_rod_grade(
    sheet: &[u8],
    state: &[u8],
    pairs: &[u8],
    rows: &[u8],
    tolerance: i64,
    row: &mut u64,
) -> u64
    ensures { grade_seen result row.new ≡ grade_seen_of (grade_of sheet.now state.now (grading pairs.now rows.now tolerance)) }
{
    // Each arm also sets the lent row, so that one function for the number alone would save nothing.
    match grade::entry::grade(sheet, state, pairs, rows, tolerance) {
        Ok(grade) => {
            *row = grade.row() as u64;
            0
        }
        Err(refused) => {
            *row = 0;
            refused.in_one_number()
        }
    }
}
