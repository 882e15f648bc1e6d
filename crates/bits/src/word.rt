// A field of up to 64 bits, read by bytes and not by bits. Bit and width are numbers here and no `Field`, since a part of a field is read too.
ghost use Rattle.std.specs.Prelude.{◌≡◌, ◌+◌, ◌-◌, ◌*◌, ◌^◌, ◌≤◌, ◌<◌, get_or};
ghost use Rattle.bits.specs.Field.{field};

fn byte_at(s: &[u8], i: usize) -> u64
    ensures value { result ≡ get_or s.now i 0 }
    ensures byte { result < 256 }
{
    s.get(i).copied().map_or(0, u64::from)
}

// The number that the bytes from `from` up to `to` make.
fn number(s: &[u8], from: usize, to: usize) -> u64
    requires { (from ≤ to) × (to ≤ from + 8) }
    ensures { result ≡ field s.now (8 * from) (8 * (to - from)) }
{
    let mut x: u64 = 0;
    // By index: a byte behind the end is read as 0, and an iterator over the slice would end before it.
    for i in from..to {
        x = x * 256 + byte_at(s, i);
    }
    x
}

// A field that lies in at most eight bytes: their number, cut at both ends.
fn in_a_word(s: &[u8], at: usize, width: usize) -> u64
    requires { (width ≤ 56) × (at < 2 ^ 60) }
    ensures { result ≡ field s.now at width }
{
    let to = (at + width + 7) / 8;
    let after = 8 * to - at - width;
    let word = number(s, at / 8, to);
    (word >> after) % (1 << width)
}

// A field in two parts where eight bytes may not hold it.
pub(crate) fn read(s: &[u8], at: usize, width: usize) -> u64
    requires { (width ≤ 64) × (at < 2 ^ 59) }
    ensures { result ≡ field s.now at width }
{
    if width <= 56 {
        return in_a_word(s, at, width);
    }
    let front = width - 32;
    let high = in_a_word(s, at, front);
    high * 4294967296 + in_a_word(s, at + front, 32)
}
