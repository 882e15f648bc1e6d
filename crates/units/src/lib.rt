// The kinds of quantity (SPEC 2.2, 2.3). A sum or a difference stays in its kind; only a modulus leads from strain to stress; an expansion
// leads from temperature to strain, and a curvature from an offset.
#![tactic(auto)]

ghost use Rattle.std.specs.Prelude.{◌≡◌, ◌+◌, ◌-◌, ◌*◌, ◌/◌, ◌^◌, ◌≤◌, ◌<◌, true, ℕ, ℤ, pos, nat_abs, ◌+ℤ◌, ◌-ℤ◌, ◌*ℤ◌, refl};
ghost use Rattle.std.specs.Int.Signed.{le_z};
ghost use Rattle.units.specs.Kinds.{nano, grain, tenths, length_of, magnitude};
ghost use Rattle.units.specs.Signs.{is_neg, with_sign};

// Strain, in 10⁻⁹.
#[derive(Clone, Copy, PartialEq, Eq, PartialOrd, Ord)]
pub struct Nano(pub i64);

// Stress, in grains: 10⁻⁹ MPa.
#[derive(Clone, Copy, PartialEq, Eq, PartialOrd, Ord)]
pub struct Grain(pub i64);

// Temperature, in tenths of a degree Celsius.
#[derive(Clone, Copy, PartialEq, Eq, PartialOrd, Ord)]
pub struct Tenths(pub i64);

// The length of a segment, or the magnitude of a strain, in nano.
#[derive(Clone, Copy, PartialEq, Eq, PartialOrd, Ord)]
pub struct Length(pub u64);

// Grains that have no sign: the magnitude of a stress, a yield stress, a yield limit, an abscissa.
#[derive(Clone, Copy, PartialEq, Eq, PartialOrd, Ord)]
pub struct Magnitude(pub u64);

// A modulus, in MPa.
#[derive(Clone, Copy, PartialEq, Eq, PartialOrd, Ord)]
pub struct Modulus(pub u64);

// Thermal expansion, in nano per tenth of a degree.
#[derive(Clone, Copy, PartialEq, Eq, PartialOrd, Ord)]
pub struct Expansion(pub u64);

// Curvature of a section, in nano per mm.
#[derive(Clone, Copy, PartialEq, Eq, PartialOrd, Ord)]
pub struct Curvature(pub i64);

// A signed kind that is added up. What such kinds have stands here once, and none of it joins two of them. Each kind says by itself how it
// holds its number: an impl may not be written by a macro.
pub trait Quantity: Copy {
    // What its magnitude is.
    type Size: From<u64>;

    // The whole number that it holds,
    ghost number: { Self → ℤ };

    // and the quantity that holds a whole number.
    ghost quantity: { ℤ → Self };

    fn whole(self) -> i64
        ensures { result ≡ number self };

    fn of_whole(whole: i64) -> Self
        ensures { result ≡ quantity whole };

    final fn plus(self, other: Self) -> Self
        requires { nat_abs (number self) + nat_abs (number other) < 2 ^ 63 }
        ensures value { result ≡ quantity (number self +ℤ number other) }
        ensures most { nat_abs (number result) ≤ nat_abs (number self) + nat_abs (number other) }
    {
        Self::of_whole(self.whole() + other.whole())
    }

    final fn minus(self, other: Self) -> Self
        requires { nat_abs (number self) + nat_abs (number other) < 2 ^ 63 }
        ensures value { result ≡ quantity (number self -ℤ number other) }
        ensures most { nat_abs (number result) ≤ nat_abs (number self) + nat_abs (number other) }
    {
        Self::of_whole(self.whole() - other.whole())
    }

    final fn magnitude(self) -> Self::Size
        ensures { Self.Size.from_gives (nat_abs (number self)) result }
    {
        Self::Size::from(self.whole().unsigned_abs())
    }

    final fn negative(self) -> bool
        ensures { result ≡ is_neg (number self) }
    {
        self.whole() < 0
    }

    ghost back: { (z : ℤ) → number (quantity z) ≡ z };
}

impl Quantity for Nano {
    type Size = Length;

    ghost number = { λ strain. strain.0 };

    ghost quantity = { nano };

    ghost back = { λ z. refl };

    fn whole(self) -> i64 {
        self.0
    }

    fn of_whole(whole: i64) -> Nano {
        Nano(whole)
    }
}

impl Quantity for Grain {
    type Size = Magnitude;

    ghost number = { λ stress. stress.0 };

    ghost quantity = { grain };

    ghost back = { λ z. refl };

    fn whole(self) -> i64 {
        self.0
    }

    fn of_whole(whole: i64) -> Grain {
        Grain(whole)
    }
}

impl Quantity for Tenths {
    type Size = u64;

    ghost number = { λ temperature. temperature.0 };

    ghost quantity = { tenths };

    ghost back = { λ z. refl };

    fn whole(self) -> i64 {
        self.0
    }

    fn of_whole(whole: i64) -> Tenths {
        Tenths(whole)
    }
}

impl From<u64> for Length {
    ghost from_gives = { λ nano length. length ≡ length_of nano };

    fn from(nano: u64) -> Length {
        Length(nano)
    }
}

impl From<u64> for Magnitude {
    ghost from_gives = { λ grains size. size ≡ magnitude grains };

    fn from(grains: u64) -> Magnitude {
        Magnitude(grains)
    }
}

// What a quantity is multiplied by, to be one of another kind.
pub trait Factor: Copy {
    ghost number: { Self → ℕ };

    fn whole(self) -> u64
        ensures { result ≡ number self };
}

impl Factor for Modulus {
    ghost number = { λ modulus. modulus.0 };

    fn whole(self) -> u64 {
        self.0
    }
}

impl Factor for Expansion {
    ghost number = { λ expansion. expansion.0 };

    fn whole(self) -> u64 {
        self.0
    }
}

// A kind that has a factor into another one.
pub trait Scaled: Quantity {
    type By: Factor;

    type Product: Quantity;

    final fn times(self, by: Self::By) -> Self::Product
        requires { (Self.By.number by < 2 ^ 63) × (Self.By.number by * nat_abs (Self.number self) < 2 ^ 63) }
        ensures value { result ≡ Self.Product.quantity (pos (Self.By.number by) *ℤ Self.number self) }
        ensures size { nat_abs (Self.Product.number result) ≡ Self.By.number by * nat_abs (Self.number self) }
    {
        let factor = by.whole() as i64;
        let product = factor * self.whole();
        Self::Product::of_whole(product)
    }
}

// MPa times nano is grains (SPEC 2.1).
impl Scaled for Nano {
    type By = Modulus;

    type Product = Grain;
}

// Nano per tenth times tenths is nano.
impl Scaled for Tenths {
    type By = Expansion;

    type Product = Nano;
}

// Not `Scaled`: an offset is a bare number.
impl Curvature {
    // The strain at an offset in mm.
    pub fn strain_at(self, offset: i64) -> Nano
        requires { nat_abs self.0 * nat_abs offset < 2 ^ 63 }
        ensures value { result ≡ nano (self.0 *ℤ offset) }
        ensures size { nat_abs result.0 ≡ nat_abs self.0 * nat_abs offset }
    {
        let strain = self.0 * offset;
        Nano(strain)
    }
}

impl Tenths {
    // How many tenths it is above another temperature.
    pub fn tenths_above(self, other: Tenths) -> u64
        requires self_value { le_z other.0 self.0 ≡ true }
        requires room { nat_abs self.0 + nat_abs other.0 < 2 ^ 63 }
        ensures { pos result ≡ self.0 -ℤ other.0 }
    {
        self.minus(other).0 as u64
    }
}

impl Grain {
    // A magnitude with its sign put back. Without one it is taken for a stress here too: a `From` couldn't ask that it fits.
    pub fn of(negative: bool, size: Magnitude) -> Grain
        requires { size.0 < 2 ^ 63 }
        ensures value { result ≡ grain (with_sign negative size.0) }
        ensures size { nat_abs result.0 ≡ size.0 }
    {
        Grain(with_sign(negative, size.0))
    }
}

// Not `Scaled`, which is of kinds with a sign.
impl Length {
    // MPa times nano is grains (SPEC 2.1).
    pub fn times(self, modulus: Modulus) -> Magnitude
        requires { modulus.0 * self.0 < 2 ^ 64 }
        ensures { result ≡ magnitude (modulus.0 * self.0) }
    {
        Magnitude(modulus.0 * self.0)
    }
}

// Not a `Quantity`, which has a sign.
impl Magnitude {
    pub fn plus(self, other: Magnitude) -> Magnitude
        requires { self.0 + other.0 < 2 ^ 64 }
        ensures { result ≡ magnitude (self.0 + other.0) }
    {
        Magnitude(self.0 + other.0)
    }

    pub fn minus(self, other: Magnitude) -> Magnitude
        requires { other.0 ≤ self.0 }
        ensures { result ≡ magnitude (self.0 - other.0) }
    {
        Magnitude(self.0 - other.0)
    }

    // The share tangent / modulus, rounded down: one division where the product fits 64 bits, as the bounds 2 ^ 20 and 2 ^ 44 make sure;
    // else the quotient and the remainder apart, so that no product leaves 64 bits.
    #[tactic(auto, using(crate::proofs::Floors::in_parts))]
    pub fn share(self, tangent: Modulus, modulus: Modulus) -> Magnitude
        requires { (0 < modulus.0) × (tangent.0 ≤ modulus.0) × (modulus.0 ≤ 2 ^ 32) }
        ensures value { result ≡ magnitude (self.0 * tangent.0 / modulus.0) }
        ensures most { result.0 ≤ self.0 }
    {
        let d = self.0;
        let t = tangent.0;
        let e = modulus.0;
        if t < 1048576 && d < 17592186044416 {
            let product = d * t;
            return Magnitude(product / e);
        }
        let parts = (d / e) * t;
        let rest = (d % e) * t;
        let share = parts + rest / e;
        Magnitude(share)
    }
}

// A magnitude with its sign put back. The sign is the answer of a test, and a type of its own would be a bool by another name.
pub fn with_sign(negative: bool, size: u64) -> i64
    requires { size < 2 ^ 63 }
    ensures value { result ≡ with_sign negative size }
    ensures size { nat_abs result ≡ size }
{
    let whole = size as i64;
    if negative {
        return -whole;
    }
    whole
}
