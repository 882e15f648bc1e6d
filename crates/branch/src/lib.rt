// The branch of the law that gave a row (SPEC 7.7), and the three bits that name it there (SPEC 3.14).
#![tactic(auto)]

ghost use Rattle.std.specs.Prelude.{◌≡◌};
ghost use Rattle.branch.specs.Branches.{branch_number, branch_of, yielded_by};

#[derive(Clone, Copy, PartialEq, Eq)]
pub enum Branch {
    Elastic,
    Tension,
    Compression,
}

impl From<Branch> for u64 {
    ghost from_gives = { λ branch number. number ≡ branch_number branch };

    fn from(branch: Branch) -> u64 {
        branch as u64
    }
}

// Any number above 2 is read as elastic.
impl From<u64> for Branch {
    ghost from_gives = { λ number branch. branch ≡ branch_of number };

    #[tactic(auto, unfolding(crate::specs::Branches::branch_of))]
    fn from(number: u64) -> Branch {
        match number {
            1 => Branch::Tension,
            2 => Branch::Compression,
            _ => Branch::Elastic,
        }
    }
}

impl Branch {
    // Whether the rod flowed.
    pub fn yielded(self) -> bool
        ensures { result ≡ yielded_by self }
    {
        self != Branch::Elastic
    }
}
