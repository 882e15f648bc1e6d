// Where everything stands in a state's bytes (SPEC 3.11); `specs/States.antt` has the same for contracts.
use bits::Field;

// Bytes of a state.
pub const STATE_LENGTH: usize = 37;

// The fields, each of which begins where the one before it ends.
pub const LAW: Field = Field { at: 0, width: 2 };

pub const YIELDED: Field = Field {
    at: LAW.at + LAW.width,
    width: 1,
};

pub const ZERO: Field = Field {
    at: YIELDED.at + YIELDED.width,
    width: 5,
};

pub const STRAIN: Field = Field {
    at: ZERO.at + ZERO.width,
    width: 32,
};

pub const TEMPERATURE: Field = Field {
    at: STRAIN.at + STRAIN.width,
    width: 16,
};

pub const STRESS: Field = Field {
    at: TEMPERATURE.at + TEMPERATURE.width,
    width: 48,
};

pub const FIRST: Field = Field {
    at: STRESS.at + STRESS.width,
    width: 64,
};

pub const SECOND: Field = Field {
    at: FIRST.at + FIRST.width,
    width: 64,
};

pub const PAIRS: Field = Field {
    at: SECOND.at + SECOND.width,
    width: 32,
};

pub const YIELDED_PAIRS: Field = Field {
    at: PAIRS.at + PAIRS.width,
    width: 32,
};

// The fields before the strain, which are written as one.
pub const FRONT: Field = Field {
    at: LAW.at,
    width: STRAIN.at - LAW.at,
};
