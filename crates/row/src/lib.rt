// A row, what a pair gave in sixteen bytes (SPEC 3.14).
#![tactic(auto)]

ghost use Rattle.std.specs.Prelude.{◌≡◌, ◌+◌, ◌*◌, ◌^◌, ◌≤◌, ◌<◌, length, take, drop};
ghost use Rattle.bits.specs.Layout.{filled, packed, put};
ghost use Rattle.row.specs.Rows.{RowFits, row_bytes, row_layout, row_length, row_of, row_values};

use bits::Field;
use branch::Branch;
use units::{Grain, Modulus};

// The bytes of a row.
pub const ROW_LENGTH: usize = 16;

// Its fields, each of which begins where the one before it ends.
const YIELDED: Field = Field { at: 0, width: 1 };

const BRANCH: Field = Field {
    at: YIELDED.at + YIELDED.width,
    width: 3,
};

const TANGENT: Field = Field {
    at: BRANCH.at + BRANCH.width,
    width: 20,
};

const STRESS: Field = Field {
    at: TANGENT.at + TANGENT.width,
    width: 48,
};

const PLASTIC: Field = Field {
    at: STRESS.at + STRESS.width,
    width: 56,
};

// As they are written: the three fields in front as one, and the last eight bytes.
const FRONT: Field = Field {
    at: YIELDED.at,
    width: STRESS.at - YIELDED.at,
};

const LAST_WORD: Field = Field {
    at: 8 * ROW_LENGTH - 64,
    width: 64,
};

// `branch` says which way plastic strain went (SPEC 7.7), `plastic` is E times plastic strain (SPEC 5.4).
#[derive(Clone, Copy)]
pub struct Row {
    pub yielded: bool,
    pub branch: Branch,
    pub tangent: Modulus,
    pub stress: Grain,
    pub plastic: Grain,
}

impl Row {
    // Reads the row at the start of some bytes.
    pub fn read(s: &[u8]) -> Row
        ensures { result ≡ row_of s.now }
    {
        Row {
            yielded: YIELDED.is_set(s),
            branch: Branch::from(BRANCH.read::<u64>(s)),
            tangent: Modulus(TANGENT.read(s)),
            stress: Grain(STRESS.read(s)),
            plastic: Grain(PLASTIC.read(s)),
        }
    }

    // The stress in the row that comes after j others, and no other field of it.
    pub fn stress_at(rows: &[u8], j: usize) -> Grain
        requires { j < 2 ^ 52 }
        ensures { result ≡ (row_of (take row_length (drop (row_length * j) rows.now))).stress }
    {
        Grain(STRESS.behind(8 * ROW_LENGTH * j).read(rows))
    }

    // The first three fields as one number of 24 bits: yielded, branch, tangent.
    #[tactic(auto, using(branch::proofs::BranchLaws::number_below_three, bits::proofs::SignLaws::flag_below), unfolding(bits::specs::Layout::widths, bits::specs::Layout::packed))]
    fn front(self) -> u64
        requires { RowFits self }
        ensures { result ≡ packed (take 3 (filled row_layout (row_values self))) }
    {
        let marks = (u64::from(self.yielded) << BRANCH.width) + u64::from(self.branch);
        (marks << TANGENT.width) + self.tangent.0
    }

    // Writes the row at a place of a lent buffer.
    #[tactic(auto, using(bits::proofs::PutLaws::put_cut, crate::proofs::RowLaws::length_row))]
    pub fn write(self, buffer: &mut [u8], at: usize)
        requires { (at + row_length ≤ length buffer.old) × RowFits self }
        ensures { buffer.new ≡ put buffer.old at (row_bytes self) }
    {
        let to = at + ROW_LENGTH;
        self.fill(&mut buffer[at..to]);
    }

    // Writes the row where it is to stand.
    #[tactic(auto, using(crate::proofs::RowLaws::put_row, bits::proofs::SignLaws::passed))]
    fn fill(self, row: &mut [u8])
        requires { (length row.old ≡ row_length) × RowFits self }
        ensures { row.new ≡ row_bytes self }
    {
        // Eight bytes where seven would do: the compiler then joins some of their stores. The stress is written over the first.
        LAST_WORD.write(row, self.plastic.0);
        STRESS.write(row, self.stress.0);
        FRONT.write(row, self.front());
    }
}
