// The numbers that bound a field or a quantity (SPEC 3.6), each pair of them under one name. `specs/Ranges.antt` has the same for contracts.
#![tactic(auto)]

use bits::Bounds;

// Fields of zero bits.
pub const ZERO: Bounds<u64> = Bounds { least: 0, most: 0 };

// Moduli and expansions.
pub const MODULUS: Bounds<u64> = Bounds {
    least: 1,
    most: 400000,
};

pub const EXPANSION: Bounds<u64> = Bounds {
    least: 0,
    most: 10000,
};

// Temperatures, in tenths.
pub const TEMPERATURE: Bounds<i64> = Bounds {
    least: -2000,
    most: 20000,
};

// Yield stresses, in 10⁻³ MPa, and how many grains one of these is.
pub const YIELD: Bounds<u64> = Bounds {
    least: 1,
    most: 10000000,
};

pub const GRAINS: u64 = 1000000;

// Lengths of segments, in nano.
pub const LENGTH: Bounds<u64> = Bounds {
    least: 1,
    most: 100000000,
};

// Total strain and the change of strain of a pair, in nano.
pub const STRAIN: Bounds<i64> = Bounds {
    least: -100000000,
    most: 100000000,
};

pub const CHANGE: Bounds<i64> = Bounds {
    least: -200000000,
    most: 200000000,
};

// Stress and kinematic centre, in grains.
pub const STRESS: Bounds<i64> = Bounds {
    least: -100000000000000,
    most: 100000000000000,
};

// Abscissas, in grains.
pub const ABSCISSA: Bounds<i64> = Bounds {
    least: 0,
    most: 100000000000000000,
};

// Pairs of one list.
pub const MOST_PAIRS: usize = 4096;

// Pairs that a state counts.
pub const MOST_COUNT: u64 = 4294967295;

// Rods of one section, the area of one in mm², its offset in mm, and a change of curvature in nano per mm.
pub const RODS: Bounds<u64> = Bounds { least: 1, most: 32 };

pub const AREA: Bounds<u64> = Bounds {
    least: 1,
    most: 1000000,
};

pub const OFFSET: Bounds<i64> = Bounds {
    least: -1000,
    most: 1000,
};

pub const CURVATURE: Bounds<i64> = Bounds {
    least: -1000000,
    most: 1000000,
};

// The tolerance of a grading, in grains.
pub const TOLERANCE: Bounds<i64> = Bounds {
    least: 0,
    most: 1000000000000,
};
