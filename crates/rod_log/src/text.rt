// A text that is written into a lent buffer (SPEC 12.5), one piece behind another.
// Numbers are printed by hand: the bytes go to a lent buffer, whose every byte has an equation, and of a formatter's text there is none.
ghost use Rattle.std.specs.Prelude.{◌≡◌, ◌+◌, ◌≤◌, ◌++◌, length};
ghost use Rattle.rod_log.specs.Texts.{Appended, numeral, signed_numeral};

use units::{Grain, Quantity};

// The digits of the greatest number of 64 bits.
const MOST_DIGITS: usize = 20;

// The buffer, and where the next piece goes: with no heap a text grows in what was lent for it.
#[derive(Drop)]
pub(crate) struct Text<'a> {
    pub out: &'a mut [u8],
    pub at: usize,
}

impl<'a> Text<'a> {
    pub(crate) fn append(&mut self, piece: &[u8])
        requires { self.old.at + length piece.now ≤ length self.old.out.now }
        ensures same_buffer { self.new.out.ghost_name ≡ self.old.out.ghost_name }
        ensures appended { Appended piece.now self.old.out.now self.old.at self.new.out.now self.new.at }
    {
        let end = self.at + piece.len();
        self.out[self.at..end].copy_from_slice(piece);
        self.at = end;
    }

    // A number in decimal.
    pub(crate) fn decimal(&mut self, n: u64)
        requires { self.old.at + length (numeral n) ≤ length self.old.out.now }
        ensures same_buffer { self.new.out.ghost_name ≡ self.old.out.ghost_name }
        ensures appended { Appended (numeral n) self.old.out.now self.old.at self.new.out.now self.new.at }
    {
        let mut digits = [0; MOST_DIGITS];
        let count = io::decimal(n, &mut digits);
        self.append(&digits[..count]);
    }

    // A number in decimal and what stands behind it.
    pub(crate) fn number(&mut self, n: u64, after: &[u8])
        requires { self.old.at + length (numeral n ++ after.now) ≤ length self.old.out.now }
        ensures same_buffer { self.new.out.ghost_name ≡ self.old.out.ghost_name }
        ensures appended { Appended (numeral n ++ after.now) self.old.out.now self.old.at self.new.out.now self.new.at }
    {
        self.decimal(n);
        self.append(after);
    }

    // The same for a stress, with its sign.
    pub(crate) fn signed(&mut self, stress: Grain, after: &[u8])
        requires { self.old.at + length (signed_numeral stress.0 ++ after.now) ≤ length self.old.out.now }
        ensures same_buffer { self.new.out.ghost_name ≡ self.old.out.ghost_name }
        ensures appended { Appended (signed_numeral stress.0 ++ after.now) self.old.out.now self.old.at self.new.out.now self.new.at }
    {
        let size = stress.magnitude();
        if stress.negative() {
            self.append(b"-");
        }
        self.number(size.0, after);
    }
}
