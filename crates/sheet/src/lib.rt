// The material sheet: what it holds (SPEC 3.9), and its reader.
#![tactic(auto)]

mod layout; // layout.rt: where everything stands in the bytes
pub mod material; // material.rt: a sheet that passed

ghost use Rattle.std.specs.Prelude.{◌≡◌, ℕ, Bool, ◌+◌, ◌*◌, ◌≤◌, ◌<◌, true, ◌&&◌, cond, eqb, length, []};
ghost use Rattle.refusals.specs.Table.{first_of};
ghost use Rattle.units.specs.Kinds.{expansion, magnitude};
ghost use Rattle.refusals.specs.Reasons.{answer_by};
ghost use Rattle.ranges.specs.Ranges.{most_expansion, grains};
ghost use Rattle.bits.specs.Field.{within};
ghost use Rattle.expansion.specs.Points.{most_points};
ghost use Rattle.curve.specs.Sides.{most_segments};
ghost use Rattle.sheet.specs.SheetLayout.{most_counted, most_points_counted, sheet_length, longest_sheet};
ghost use Rattle.sheet.specs.Sheets.{most_tension, segment_count, counted_length, length_right, segment_in, all_below, listed, length_wrong, sheet_field_refusals, sheet_refusals, sheet_of, expansion_in, point_count, coefficients_by};
ghost use Rattle.sheet.specs.ReaderAnswers.{right_or_field, ReadsEach, read_into, no_segments, no_points, Unread, counts_of, counts_in, constants_in, yields_in, header_in, side_read, point_read, points_read, coefficients_read, side_falls, values_in};

use bits::Bounds;
use curve::{Segment, Side};
use expansion::{Coefficients, Point, Points};
use law::Law;
use refusals::Reason;
use units::{Expansion, Length, Magnitude, Modulus, Tenths};

// How many points a sheet may have.
const POINTS: Bounds<u64> = Bounds {
    least: 0,
    most: expansion::MOST_POINTS as u64,
};

// What a sheet that passes says: yields in grains, lengths in nano, tangents and Young's modulus in MPa.
// The compression side is no `Option`: the law says whether there is one.
#[derive(Clone, Copy)]
pub struct Sheet {
    pub law: Law,
    pub modulus: Modulus,
    pub expansion: Coefficients,
    pub reference: Tenths,
    pub tension: Side,
    pub compression: Side,
}

// The law, how many segments each side has, and how many points there are.
#[derive(Clone, Copy)]
struct Counts {
    law: Law,
    tension: usize,
    compression: usize,
    points: usize,
}

// Young's modulus, the single expansion, which is 0 beside points, and the reference temperature: what the fields hold.
#[derive(Clone, Copy)]
struct Constants {
    modulus: Modulus,
    expansion: Expansion,
    reference: Tenths,
}

// The yield stress of each side, 0 for one that the law hasn't: what the fields hold.
#[derive(Clone, Copy)]
struct Yields {
    tension: Magnitude,
    compression: Magnitude,
}

// All that stands in front of the segments.
#[derive(Clone, Copy)]
struct Header {
    counts: Counts,
    constants: Constants,
    yields: Yields,
}

// How many segments a law may have in tension.
fn tension_bounds(law: Law) -> Bounds<u64>
    ensures least { result.least ≡ 1 }
    ensures most { result.most ≡ most_tension law }
{
    let most = match law {
        Law::IsotropicCurve => curve::MOST_SEGMENTS as u64,
        Law::IsotropicLine | Law::Kinematic | Law::Asymmetric => 1,
    };
    Bounds { least: 1, most }
}

// The bounds of a field that is 0 where it isn't used.
fn bounds_where(used: bool, bounds: Bounds<u64>) -> Bounds<u64>
    ensures { (x : ℕ) → within result.least result.most x ≡ cond used (within bounds.least bounds.most x) (eqb x 0) }
{
    if used {
        bounds
    } else {
        Bounds { least: 0, most: 0 }
    }
}

// Here and below a field is read by `let .. else`, the form that is named for it (DECISIONS.md, Forms).
#[tactic(auto, using(bits::proofs::FieldLaws::field_below), unfolding(bits::specs::Field::some_if, crate::specs::Sheets::sheet_counts_right))]
fn read_counts(s: &[u8]) -> Result<Counts, Reason>
    ensures { result ≡ counts_in s.now }
{
    let law = Law::of(layout::LAW.read(s));
    let Some(tension) = layout::TENSION_COUNT.read_within(s, tension_bounds(law)) else {
        return Err(Reason::SheetField);
    };
    let compression: u64 = layout::COMPRESSION_COUNT.read(s);
    if compression != u64::from(law.has_second()) {
        return Err(Reason::SheetField);
    }
    let Some(points) = layout::POINT_COUNT.read_within(s, POINTS) else {
        return Err(Reason::SheetField);
    };
    Ok(Counts {
        law,
        tension: tension as usize,
        compression: compression as usize,
        points: points as usize,
    })
}

// A sheet with points has no single expansion.
#[tactic(auto, unfolding(bits::specs::Field::some_if, crate::specs::Sheets::constants_right))]
fn read_constants(s: &[u8], points: usize) -> Result<Constants, Reason>
    ensures { result ≡ constants_in s.now points }
{
    let Some(modulus) = layout::MODULUS.read_within(s, ranges::MODULUS) else {
        return Err(Reason::SheetField);
    };
    let bounds = bounds_where(points == 0, ranges::EXPANSION);
    let Some(expansion) = layout::EXPANSION.read_within(s, bounds) else {
        return Err(Reason::SheetField);
    };
    let Some(reference) = layout::REFERENCE.read_within(s, ranges::TEMPERATURE) else {
        return Err(Reason::SheetField);
    };
    Ok(Constants {
        modulus: Modulus(modulus),
        expansion: Expansion(expansion),
        reference: Tenths(reference),
    })
}

// The yields and the zero bits behind them. The compression yield is 0 where the law has no compression side.
#[tactic(auto, unfolding(bits::specs::Field::some_if, crate::specs::Sheets::yields_right))]
fn read_yields(s: &[u8], law: Law) -> Result<Yields, Reason>
    ensures { result ≡ yields_in s.now law }
{
    let Some(_) = layout::ZERO.read_within(s, ranges::ZERO) else {
        return Err(Reason::SheetField);
    };
    let Some(tension) = layout::TENSION_YIELD.read_within(s, ranges::YIELD) else {
        return Err(Reason::SheetField);
    };
    let bounds = bounds_where(law.has_second(), ranges::YIELD);
    let Some(compression) = layout::COMPRESSION_YIELD.read_within(s, bounds) else {
        return Err(Reason::SheetField);
    };
    Ok(Yields {
        tension: Magnitude(tension * ranges::GRAINS),
        compression: Magnitude(compression * ranges::GRAINS),
    })
}

#[tactic(auto, unfolding(crate::specs::Sheets::header_right))]
fn read_header(s: &[u8]) -> Result<Header, Reason>
    ensures { result ≡ header_in s.now }
{
    let counts = read_counts(s)?;
    let constants = read_constants(s, counts.points)?;
    let yields = read_yields(s, counts.law)?;
    Ok(Header {
        counts,
        constants,
        yields,
    })
}

// The bytes of a header with so many segments and points behind it; what comes next stands behind these.
fn sheet_length(segments: usize, points: usize) -> usize
    requires { (segments ≤ most_counted) × (points ≤ most_points_counted) }
    ensures value { result ≡ sheet_length segments points }
    ensures most { result ≤ longest_sheet }
{
    layout::HEADER_LENGTH + layout::SEGMENT_LENGTH * segments + layout::POINT_LENGTH * points
}

// A place behind the last segment of a side (SPEC 3.9).
const NO_SEGMENT: Segment = Segment {
    length: Length(0),
    tangent: Modulus(0),
};

// Segment i of a side that has `count` segments, the first of them being segment `first` of the sheet.
#[tactic(auto, unfolding(bits::specs::Field::some_if))]
fn read_segment(s: &[u8], first: usize, count: usize, i: usize) -> Result<Segment, Reason>
    requires { (first ≤ most_segments) × (count ≤ most_segments) × (i < count) }
    ensures { result ≡ right_or_field (length_right s.now first count i) (segment_in s.now (first + i)) }
{
    let at = 8 * sheet_length(first + i, 0);
    let length = layout::LENGTH.behind(at);
    // The last segment of a side has no end.
    let Some(length) = length.read_within(s, bounds_where(i + 1 != count, ranges::LENGTH)) else {
        return Err(Reason::SheetField);
    };
    let tangent = layout::TANGENT.behind(at).read(s);
    Ok(Segment {
        length: Length(length),
        tangent: Modulus(tangent),
    })
}

// Things that stand one behind another, each into its place. The readers of many values are written out where they are called, and read
// into a sheet that they are lent, so that no array is copied from answer to answer.
#[inline(always)]
fn read_each<T: Copy, F: Fn(usize) -> Result<T, Reason>>(
    places: &mut [T],
    read: F,
) -> Result<(), Reason>
    requires { (i : ℕ) → i < length places.old → F.pre read i }
    ensures { (right : ℕ → Bool) (thing : ℕ → T) → ReadsEach (F.post read) right thing (length places.old) → read_into places.new result ≡ right_or_field (all_below right (length places.old)) (listed thing 0 (length places.old)) }
{
    for (i, place) in places.iter_mut().enumerate() {
        *place = read(i)?;
    }
    Ok(())
}

// A side: its yield stress, and `count` segments, from segment `first` of the sheet on.
#[inline(always)]
fn read_side(
    s: &[u8],
    yield_stress: Magnitude,
    first: usize,
    count: usize,
    side: &mut Side,
) -> Result<(), Reason>
    requires { (first ≤ most_segments) × (count ≤ most_segments) × (side.old.segments ≡ no_segments) }
    ensures { (yield : ℕ) → yield_stress ≡ magnitude (yield * grains) → read_into side.new result ≡ side_read s.now yield first count }
{
    side.yield_stress = yield_stress;
    side.count = count;
    read_each(&mut side.segments[..count], |i| {
        read_segment(s, first, count, i)
    })
}

#[tactic(auto, using(crate::proofs::SheetLaws::few_segments), unfolding(bits::specs::Field::some_if))]
fn read_point(s: &[u8], segments: usize, i: usize) -> Result<Point, Reason>
    requires { (segments ≡ segment_count s.now) × (i < most_points) }
    ensures { result ≡ point_read s.now i }
{
    let at = 8 * sheet_length(segments, i);
    let temperature = layout::POINT_TEMPERATURE.behind(at);
    let Some(temperature) = temperature.read_within(s, ranges::TEMPERATURE) else {
        return Err(Reason::SheetField);
    };
    let coefficient = layout::COEFFICIENT.behind(at);
    let Some(coefficient) = coefficient.read_within(s, ranges::EXPANSION) else {
        return Err(Reason::SheetField);
    };
    let zero = layout::POINT_ZERO.behind(at);
    let Some(_) = zero.read_within(s, ranges::ZERO) else {
        return Err(Reason::SheetField);
    };
    Ok(Point {
        temperature: Tenths(temperature),
        coefficient: Expansion(coefficient),
    })
}

// A place behind the last point (SPEC 3.9).
const NO_POINT: Point = Point {
    temperature: Tenths(expansion::NEVER_REACHED),
    coefficient: Expansion(0),
};

// The points, behind `segments` segments.
#[inline(always)]
fn read_points(s: &[u8], segments: usize, points: &mut Points) -> Result<(), Reason>
    requires { (segments ≡ segment_count s.now) × (points.old.count ≡ point_count s.now) × (points.old.count ≤ most_points) × (points.old.places ≡ no_points) }
    ensures { read_into points.new result ≡ points_read s.now }
{
    let count = points.count;
    read_each(&mut points.places[..count], |i| read_point(s, segments, i))
}

// What a sheet says of expansion before its points are read.
#[inline(always)]
fn unread(single: Expansion, count: usize) -> Coefficients
    ensures { result ≡ coefficients_by count single.0 [] }
{
    if count == 0 {
        Coefficients::Single(single)
    } else {
        Coefficients::AtPoints(Points {
            count,
            places: [NO_POINT; expansion::MOST_POINTS],
        })
    }
}

// What the sheet says of expansion: the single number, or the points where there are any.
#[tactic(auto, using(crate::proofs::SheetLaws::few_segments))]
#[inline(always)]
fn read_coefficients(
    s: &[u8],
    counts: Counts,
    single: Expansion,
    coefficients: &mut Coefficients,
) -> Result<(), Reason>
    requires { (counts ≡ counts_of s.now) × (counts.points ≤ most_points) × (single ≡ expansion (expansion_in s.now)) }
    ensures { read_into coefficients.new result ≡ coefficients_read s.now }
{
    *coefficients = unread(single, counts.points);
    match coefficients {
        Coefficients::Single(_) => Ok(()),
        Coefficients::AtPoints(points) => {
            read_points(s, counts.tension + counts.compression, points)
        }
    }
}

// Whether each tangent of a side is below Young's modulus and not above the one before it.
#[tactic(auto, using(crate::proofs::TangentLaws::tangent_rule, crate::proofs::SheetLaws::all_below_more, crate::proofs::SheetLaws::all_below_stops), unfolding(crate::specs::Sheets::all_below))]
fn falls(side: Side, modulus: Modulus) -> bool
    requires { side.count ≤ most_segments }
    ensures { result ≡ side_falls side modulus.0 }
{
    let mut before = modulus;
    for segment in &side.segments[..side.count] {
        let tangent = segment.tangent;
        let keeps = tangent < modulus && tangent <= before;
        if !keeps {
            return false;
        }
        before = tangent;
    }
    true
}

// The same on both sides of a sheet.
fn tangents_fall(sheet: &Sheet) -> bool
    requires { (sheet.now.tension.count ≤ most_segments) × (sheet.now.compression.count ≤ most_segments) }
    ensures { result ≡ side_falls sheet.now.tension sheet.now.modulus.0 && side_falls sheet.now.compression sheet.now.modulus.0 }
{
    falls(sheet.tension, sheet.modulus) && falls(sheet.compression, sheet.modulus)
}

// All that the bytes say, where each field is right.
#[tactic(auto, unfolding(crate::specs::Sheets::sheet_of))]
#[inline(always)]
fn read_values(s: &[u8], sheet: &mut Sheet) -> Result<(), Reason>
    requires { Unread sheet.old }
    ensures { read_into sheet.new result ≡ values_in s.now }
{
    let Header {
        counts,
        constants,
        yields,
    } = read_header(s)?;
    let Counts {
        law,
        tension,
        compression,
        ..
    } = counts;
    sheet.law = law;
    sheet.modulus = constants.modulus;
    sheet.reference = constants.reference;
    read_side(s, yields.tension, 0, tension, &mut sheet.tension)?;
    read_side(
        s,
        yields.compression,
        tension,
        compression,
        &mut sheet.compression,
    )?;
    read_coefficients(s, counts, constants.expansion, &mut sheet.expansion)
}

// Refusals 2, 3 and 13, for bytes whose length is right.
#[tactic(auto, unfolding(refusals::specs::Table::first_of, crate::specs::Sheets::sheet_field_refusals))]
#[inline(always)]
fn read_fields(s: &[u8], sheet: &mut Sheet) -> Result<(), Reason>
    requires { Unread sheet.old }
    ensures { answer_by (λ _. sheet.new) result ≡ first_of (sheet_field_refusals s.now) (sheet_of s.now) }
{
    read_values(s, sheet)?;
    let falls = tangents_fall(sheet);
    let rises = sheet.expansion.rise();
    if !falls {
        return Err(Reason::SheetTangent);
    }
    if !rises {
        return Err(Reason::PointOrder);
    }
    Ok(())
}

// How long a sheet is by its own counts, valid or not.
#[tactic(auto, using(crate::proofs::SheetLaws::few_segments, crate::proofs::SheetLaws::few_points))]
pub fn counted_length(s: &[u8]) -> usize
    ensures value { result ≡ counted_length s.now }
    ensures most { result ≤ longest_sheet }
{
    let tensions: u64 = layout::TENSION_COUNT.read(s);
    let compressions: u64 = layout::COMPRESSION_COUNT.read(s);
    let points: u64 = layout::POINT_COUNT.read(s);
    sheet_length((tensions + compressions) as usize, points as usize)
}

#[tactic(auto, unfolding(crate::specs::Sheets::length_wrong))]
fn length_wrong(s: &[u8]) -> bool
    ensures { result ≡ length_wrong s.now }
{
    s.len() < layout::HEADER_LENGTH || s.len() != counted_length(s)
}

// A side and a sheet before they are read: of law 3, with 0 or 1 in each field. What the laws use of a sheet holds of this one, so that a
// material can be lent.
const NO_SIDE: Side = Side {
    yield_stress: Magnitude(ranges::GRAINS),
    count: 1,
    segments: [NO_SEGMENT; curve::MOST_SEGMENTS],
};

const NO_SHEET: Sheet = Sheet {
    law: Law::Asymmetric,
    modulus: Modulus(1),
    expansion: Coefficients::Single(Expansion(0)),
    reference: Tenths(0),
    tension: NO_SIDE,
    compression: NO_SIDE,
};

// Refusals 1, 2, 3 and 13, of any bytes. The lent sheet has empty places (`Unread`): a type for it would have one value.
#[tactic(auto, unfolding(refusals::specs::Table::first_of, crate::specs::Sheets::sheet_refusals))]
#[inline(always)]
fn read(s: &[u8], sheet: &mut Sheet) -> Result<(), Reason>
    requires { Unread sheet.old }
    ensures { answer_by (λ _. sheet.new) result ≡ first_of (sheet_refusals s.now) (sheet_of s.now) }
{
    if length_wrong(s) {
        return Err(Reason::SheetLength);
    }
    read_fields(s, sheet)
}
