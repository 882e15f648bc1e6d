// Where everything stands in a sheet's bytes (SPEC 3.7, 3.8); `specs/SheetLayout.antt` has the same for contracts.
use bits::Field;

// The bytes of the header, of each segment behind it, and of each point behind those.
pub const HEADER_LENGTH: usize = 14;

pub const SEGMENT_LENGTH: usize = 6;

pub const POINT_LENGTH: usize = 4;

// The fields of the header: each begins where the one before it ends.
pub const LAW: Field = Field { at: 0, width: 2 };

const COUNT_WIDTH: usize = 3;

pub const TENSION_COUNT: Field = Field {
    at: LAW.at + LAW.width,
    width: COUNT_WIDTH,
};

pub const COMPRESSION_COUNT: Field = Field {
    at: TENSION_COUNT.at + TENSION_COUNT.width,
    width: COUNT_WIDTH,
};

pub const MODULUS: Field = Field {
    at: COMPRESSION_COUNT.at + COMPRESSION_COUNT.width,
    width: 20,
};

pub const EXPANSION: Field = Field {
    at: MODULUS.at + MODULUS.width,
    width: 14,
};

pub const REFERENCE: Field = Field {
    at: EXPANSION.at + EXPANSION.width,
    width: 16,
};

const YIELD_WIDTH: usize = 24;

pub const TENSION_YIELD: Field = Field {
    at: REFERENCE.at + REFERENCE.width,
    width: YIELD_WIDTH,
};

pub const COMPRESSION_YIELD: Field = Field {
    at: TENSION_YIELD.at + TENSION_YIELD.width,
    width: YIELD_WIDTH,
};

pub const ZERO: Field = Field {
    at: COMPRESSION_YIELD.at + COMPRESSION_YIELD.width,
    width: 2,
};

pub const POINT_COUNT: Field = Field {
    at: ZERO.at + ZERO.width,
    width: 4,
};

// The fields of a segment, from the bit where it begins.
pub const LENGTH: Field = Field { at: 0, width: 28 };

pub const TANGENT: Field = Field {
    at: LENGTH.at + LENGTH.width,
    width: 20,
};

// The fields of a point, from the bit where it begins.
pub const POINT_TEMPERATURE: Field = Field { at: 0, width: 16 };

pub const POINT_ZERO: Field = Field {
    at: POINT_TEMPERATURE.at + POINT_TEMPERATURE.width,
    width: 2,
};

pub const COEFFICIENT: Field = Field {
    at: POINT_ZERO.at + POINT_ZERO.width,
    width: 14,
};
