// The numbers that a field can hold (SPEC 3.2, 3.3): one from 0 on, which is its bits, and a signed one in two's complement.
ghost use Rattle.std.specs.Prelude.{◌≡◌, ℕ, ◌+◌, ◌-◌, ◌*◌, ◌^◌, ◌≤◌, ◌<◌, Bool};
ghost use Rattle.bits.specs.Field.{Held, bits_of, twos, within, withinℤ};

pub trait Number: Copy {
    // The widths of fields that it can be read from.
    ghost Wide: { ℕ → Type 0 };

    // The number of a field of some width, from its bits; a bare width, as in word.rt.
    ghost number: { ℕ → ℕ → Self };

    // Whether so many bytes can hold a number.
    ghost Held: { ℕ → Self → Type 0 };

    // Its bits in so many bytes.
    ghost bits: { ℕ → Self → ℕ };

    // Whether it lies from the first to the second, each kind by the order of its own numbers.
    ghost lies: { Self → Self → Self → Bool };

    fn number(x: u64, width: usize) -> Self
        requires wide { Wide width × (width ≤ 64) }
        requires below { x < 2 ^ width }
        ensures { result ≡ number width x };

    fn bits(self, count: usize) -> u64
        requires { Held count self }
        ensures { result ≡ bits count self };

    fn lies(self, least: Self, most: Self) -> bool
        ensures { result ≡ lies least most self };
}

impl Number for u64 {
    ghost Wide = { λ _. Unit {0} };

    ghost number = { λ _ x. x };

    ghost Held = { λ _ _. Unit {0} };

    ghost bits = { λ _ x. x };

    ghost lies = { within };

    fn number(x: u64, _width: usize) -> u64 {
        x
    }

    fn bits(self, _count: usize) -> u64 {
        self
    }

    fn lies(self, least: u64, most: u64) -> bool {
        (least..=most).contains(&self)
    }
}

impl Number for i64 {
    ghost Wide = { λ width. 1 ≤ width };

    ghost number = { twos };

    ghost Held = { λ count z. (1 ≤ count) × (count ≤ 8) × Held (8 * count) z };

    ghost bits = { λ count z. bits_of (8 * count) z };

    ghost lies = { withinℤ };

    #[tactic(auto, using(crate::proofs::SignLaws::held_as, crate::proofs::SignLaws::twos_of_word))]
    fn number(x: u64, width: usize) -> i64 {
        if width < 64 {
            return narrow_number(x, width);
        }
        x.cast_signed()
    }

    fn bits(self, count: usize) -> u64 {
        bits_of(self, 8 * count)
    }

    fn lies(self, least: i64, most: i64) -> bool {
        (least..=most).contains(&self)
    }
}

// The whole number that fewer than 64 bits stand for in two's complement. With no branch: half of the width's numbers is added, the sum is
// cut to the width, and that half is taken off again.
fn narrow_number(x: u64, width: usize) -> i64
    requires { (1 ≤ width) × (width < 64) × (x < 2 ^ width) }
    ensures { result ≡ twos width x }
{
    let half: u64 = 1 << (width - 1);
    let raised = (x + half) % (2 * half);
    raised as i64 - half as i64
}

// The bits of some width that stand for a whole number in two's complement.
fn bits_of(z: i64, width: usize) -> u64
    requires { (1 ≤ width) × (width ≤ 64) × Held width z }
    ensures { result ≡ bits_of width z }
{
    if z < 0 {
        // All ones of the width, less how far the number lies below -1.
        return (u64::MAX >> (64 - width)) - (-1 - z) as u64;
    }
    z as u64
}
