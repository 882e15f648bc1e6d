// The four laws (SPEC 1.3), and the two bits that name one in a sheet and in a state.
#![tactic(auto)]

ghost use Rattle.std.specs.Prelude.{◌≡◌, ◌<◌};
ghost use Rattle.law.specs.Laws.{first_is_abscissa, has_second, law_of, number_of};

#[derive(Clone, Copy, PartialEq, Eq)]
pub enum Law {
    IsotropicLine,
    IsotropicCurve,
    Kinematic,
    Asymmetric,
}

impl From<Law> for u64 {
    ghost from_gives = { λ law number. number ≡ number_of law };

    fn from(law: Law) -> u64 {
        law as u64
    }
}

impl Law {
    // Not a `TryFrom`: two bits name a law whatever they are, so that nothing is refused.
    #[tactic(auto, unfolding(crate::specs::Laws::law_of))]
    pub fn of(number: u64) -> Law
        requires { number < 4 }
        ensures { result ≡ law_of number }
    {
        match number {
            0 => Law::IsotropicLine,
            1 => Law::IsotropicCurve,
            2 => Law::Kinematic,
            _ => Law::Asymmetric,
        }
    }

    // Whether the first variable is an abscissa; else it is the kinematic centre.
    pub fn first_is_abscissa(self) -> bool
        ensures { result ≡ first_is_abscissa self }
    {
        self != Law::Kinematic
    }

    // Whether the law has a second variable, the compression abscissa.
    pub fn has_second(self) -> bool
        ensures { result ≡ has_second self }
    {
        self == Law::Asymmetric
    }
}
