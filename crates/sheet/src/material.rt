// A sheet that passed, how it is read, and its thermal strain.
ghost use Rattle.sheet.specs.Sound.{SheetSound};

use crate::Sheet;
use curve::traction::TractionCurve;
use refusals::Reason;
use units::{Nano, Quantity, Scaled, Tenths};

// A sheet that passed (SPEC 3.10), or one to be read over (`unread`): what the laws use of it holds.
#[derive(Clone, Copy)]
pub struct Material {
    pub sheet: Sheet,
    pub ghost sound: { SheetSound sheet },
}

impl Material {
    ghost use Rattle.std.specs.Prelude.{◌≡◌, true, ◌≤◌, nat_abs, IfErr};
    ghost use Rattle.refusals.specs.Table.{first_of};
    ghost use Rattle.refusals.specs.Reasons.{answer_by};
    ghost use Rattle.ranges.specs.Ranges.{temperature_right};
    ghost use Rattle.units.specs.Kinds.{nano};
    ghost use Rattle.law.specs.declared.Law.TheVariants.{Asymmetric};
    ghost use Rattle.sheet.specs.Sheets.{sheet_refusals, sheet_of};
    ghost use Rattle.sheet.specs.ReaderAnswers.{unread_sheet};
    ghost use Rattle.sheet.specs.Thermal.{thermal_of};

    // A material to lend, which is read over.
    #[inline(always)]
    pub fn unread() -> Material
        ensures { result.sheet ≡ unread_sheet }
    {
        Material {
            sheet: crate::NO_SHEET,
        }
    }

    // Reads any bytes into a material, which stays as it was where they are refused. It stands alone: written out where it is called, what it
    // needs would stay on the stack.
    #[inline(never)]
    pub fn read_in(s: &[u8], material: &mut Material) -> Result<(), Reason>
        ensures told { answer_by (λ _. material.new.sheet) result ≡ first_of (sheet_refusals s.now) (sheet_of s.now) }
        ensures kept { IfErr result (λ _. material.new ≡ material.old) }
    {
        let mut sheet = crate::NO_SHEET;
        crate::read(s, &mut sheet)?;
        material.sheet = sheet;
        Ok(())
    }

    // Reads any bytes: the sheet, or why it is refused.
    pub fn read(s: &[u8]) -> Result<Material, Reason>
        ensures { answer_by (λ (m : Material). m.sheet) result ≡ first_of (sheet_refusals s.now) (sheet_of s.now) }
    {
        let mut material = Material::unread();
        Material::read_in(s, &mut material)?;
        Ok(material)
    }

    // The thermal strain at a temperature (SPEC 5.1). That it is in range is asked here and below, and by `Reached::of`: no fact of a type, since
    // definitions make rods and pairs of any numbers.
    pub fn thermal(&self, temperature: Tenths) -> Nano
        requires { temperature_right temperature.0 ≡ true }
        ensures value { result ≡ nano (thermal_of self.now.sheet temperature.0) }
        ensures most { nat_abs result.0 ≤ 400000000 }
    {
        temperature
            .minus(self.sheet.reference)
            .times(self.sheet.expansion.at(temperature))
    }

    // The traction curve in tension.
    #[tactic(auto, using(crate::proofs::SideReadable::side_readable))]
    pub fn tension(&self) -> TractionCurve<'_>
        ensures side { result.side.now ≡ self.now.sheet.tension }
        ensures modulus { result.modulus ≡ self.now.sheet.modulus }
    {
        TractionCurve {
            side: &self.sheet.tension,
            modulus: self.sheet.modulus,
        }
    }

    // The traction curve in compression, which law 3 alone has.
    #[tactic(auto, using(crate::proofs::SideReadable::side_readable))]
    pub fn compression(&self) -> TractionCurve<'_>
        requires { self.now.sheet.law ≡ Asymmetric }
        ensures side { result.side.now ≡ self.now.sheet.compression }
        ensures modulus { result.modulus ≡ self.now.sheet.modulus }
    {
        TractionCurve {
            side: &self.sheet.compression,
            modulus: self.sheet.modulus,
        }
    }
}
