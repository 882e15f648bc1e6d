// Why something is refused (SPEC 8.2), and tables of refusals, which of whose lines is answered (SPEC 8.1).
#![tactic(auto)]

ghost use Rattle.std.specs.Prelude.{◌≡◌, ◌^◌, ◌<◌};
ghost use Rattle.refusals.specs.Table.{in_one_number};
ghost use Rattle.refusals.specs.Reasons.{number_of};

// The reasons of SPEC 8.2, each with its number there. 11 was taken out (SPEC 8.7).
#[derive(Clone, Copy, PartialEq, Eq)]
pub enum Reason {
    SheetLength = 1,
    SheetField = 2,
    SheetTangent = 3,
    StateLength = 4,
    StateField = 5,
    StateOfAnotherSheet = 6,
    ListLength = 7,
    PairField = 8,
    StrainLeaves = 9,
    SteelLeaves = 10,
    LentBuffer = 12,
    PointOrder = 13,
    SectionField = 14,
    TrialNotOfState = 15,
    TableLength = 16,
    Tolerance = 17,
}

impl From<Reason> for u64 {
    ghost from_gives = { λ reason number. number ≡ number_of reason };

    fn from(reason: Reason) -> u64 {
        reason as u64
    }
}

// Each number fits a byte.
impl From<Reason> for u8 {
    ghost from_gives = { λ reason number. number ≡ number_of reason };

    fn from(reason: Reason) -> u8 {
        reason as u8
    }
}

// A refusal with its place: which pair or rod it is of, from 1, or 0, as C is told, where it is of none (SPEC 8.6, 15.4).
#[derive(Clone, Copy, PartialEq, Eq)]
pub struct Refused {
    pub reason: Reason,
    pub place: usize,
}

// What is refused as a whole has place 0.
impl From<Reason> for Refused {
    ghost from_gives = { λ reason refused. refused ≡ record { reason = reason; place = 0 } };

    fn from(reason: Reason) -> Refused {
        Refused { reason, place: 0 }
    }
}

impl Refused {
    // Number and place as one number (SPEC 9.10).
    #[tactic(auto, using(crate::proofs::ReasonLaws::number_below))]
    pub fn in_one_number(self) -> u64
        requires { self.place < 2 ^ 48 }
        ensures { result ≡ in_one_number (number_of self.reason) self.place }
    {
        u64::from(self.reason) + 256 * self.place as u64
    }
}
