// The entry of a grading (SPEC 17).
ghost use Rattle.std.specs.Prelude.{◌≡◌};
ghost use Rattle.grade.specs.Grades.{CasesApart, grade_meaning, grade_of, grading};
ghost use Rattle.grade.specs.Comparing.{settled_by};

use crate::Grade;
use crate::table::Table;
use refusals::{Reason, Refused};
use sheet::material::Material;

// The verdict on what was compared: a refused pair's number goes before 16 and 17, and these before the rows.
#[tactic(auto, using(crate::proofs::GradeLaws::err_apart, crate::proofs::GradeLaws::err_settled))]
fn verdict(compared: Result<Grade, Refused>, own: Result<(), Reason>) -> Result<Grade, Refused>
    requires { CasesApart compared }
    ensures result_value { grade_meaning result ≡ settled_by (grade_meaning compared) own }
    ensures apart { CasesApart result }
{
    let grade = compared?;
    own?;
    Ok(grade)
}

// Grades a table of rows (SPEC 17). 16 and 17 are looked at before the pairs are walked, which is quicker, and told behind.
#[tactic(auto, using(crate::proofs::GradeLaws::err_apart))]
pub fn grade(
    sheet: &[u8],
    state: &[u8],
    pairs: &[u8],
    rows: &[u8],
    tolerance: i64,
) -> Result<Grade, Refused>
    ensures result_value { grade_meaning result ≡ grade_of sheet.now state.now (grading pairs.now rows.now tolerance) }
    ensures apart { CasesApart result }
{
    let mut material = Material::unread();
    let standing = judge::judge(sheet, state, &mut material)?;
    pair::count(pairs.len())?;
    let table = Table {
        pairs,
        rows,
        tolerance,
    };
    let own = table.check();
    let compared = table.compare(standing);
    verdict(compared, own)
}
