// Fields of bits in bytes (SPEC 3.1 to 3.6): their reader, and the writer of a number into a lent buffer.
// Any bytes of any length are read: a bit behind the last byte is 0.
#![tactic(auto)]

mod number; // number.rt: the numbers that a field can hold
mod word; // word.rt: fields read by bytes

ghost use Rattle.std.specs.Prelude.{◌≡◌, ◌+◌, ◌/◌, ◌%◌, ◌^◌, ◌≤◌, ◌<◌, eqb, length};
ghost use Rattle.bits.specs.Field.{field, some_if};
ghost use Rattle.bits.specs.Layout.{bytes_of, put};

pub use number::Number;

// Where a field stands in some bytes: the bit where it begins, and its width.
#[derive(Clone, Copy)]
pub struct Field {
    pub at: usize,
    pub width: usize,
    ghost narrow: { width ≤ 64 },
    ghost near: { at < 2 ^ 59 },
}

// The least and the most that a number may be, both included. Not a RangeInclusive, which is no Copy and counts where it stands.
#[derive(Clone, Copy)]
pub struct Bounds<N> {
    pub least: N,
    pub most: N,
}

impl<N: Number> Bounds<N> {
    pub fn hold(self, x: N) -> bool
        ensures { result ≡ N.lies self.least self.most x }
    {
        x.lies(self.least, self.most)
    }
}

impl Field {
    // The same field of a part that begins at some bit.
    pub fn behind(self, start: usize) -> Field
        requires { start + self.at < 2 ^ 59 }
        ensures at { result.at ≡ start + self.at }
        ensures width { result.width ≡ self.width }
    {
        Field {
            at: start + self.at,
            width: self.width,
        }
    }

    // The field's number.
    #[tactic(auto, using(crate::proofs::FieldLaws::field_below))]
    pub fn read<N: Number>(self, s: &[u8]) -> N
        requires { N.Wide self.width }
        ensures { result ≡ N.number self.width (field s.now self.at self.width) }
    {
        let x = word::read(s, self.at, self.width);
        N::number(x, self.width)
    }

    // The field's number where it lies within its bounds.
    #[tactic(auto, unfolding(crate::specs::Field::some_if))]
    pub fn read_within<N: Number>(self, s: &[u8], bounds: Bounds<N>) -> Option<N>
        requires { N.Wide self.width }
        ensures { result ≡ some_if (N.lies bounds.least bounds.most (N.number self.width (field s.now self.at self.width))) (N.number self.width (field s.now self.at self.width)) }
    {
        let x = self.read(s);
        if bounds.hold(x) { Some(x) } else { None }
    }

    // Whether a mark, which is a field of one bit, is a yes.
    pub fn is_set(self, s: &[u8]) -> bool
        requires { self.width ≡ 1 }
        ensures { result ≡ eqb (field s.now self.at self.width) 1 }
    {
        self.read::<u64>(s) == 1
    }

    // Writes a field of whole bytes where it stands in a lent buffer.
    pub fn write<N: Number>(self, buffer: &mut [u8], x: N)
        requires whole { (self.at % 8 ≡ 0) × (self.width % 8 ≡ 0) }
        requires room { self.at / 8 + self.width / 8 ≤ length buffer.old }
        requires held { N.Held (self.width / 8) x }
        ensures { buffer.new ≡ put buffer.old (self.at / 8) (bytes_of (self.width / 8) (N.bits (self.width / 8) x)) }
    {
        let from = self.at / 8;
        let to = from + self.width / 8;
        write(&mut buffer[from..to], x);
    }
}

// Fills a part of a lent buffer with a number, its most significant byte first; a signed one stands there in two's complement.
pub fn write<N: Number>(part: &mut [u8], x: N)
    requires held { N.Held (length part.old) x }
    ensures { part.new ≡ bytes_of (length part.old) (N.bits (length part.old) x) }
{
    let count = part.len();
    let mut rest = x.bits(count);
    // By index: of a slice that `iter_mut().rev()` went through nothing is known.
    for i in (0..count).rev() {
        part[i] = (rest % 256) as u8;
        rest /= 256;
    }
}
