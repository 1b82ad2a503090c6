//! ISO/IEC 13818-2, 7.6.4: forming predictions. A motion vector in half samples leads to one, two or four samples of a reference frame
//! or field; a predicted sample is their rounded mean.
#![tactic(auto)]

ghost use Rattle.std.specs.Prelude.{◌≡◌, ◌||◌, length};
ghost use Rattle.std.specs.Result.{result_ok, result_err};
ghost use Rattle.combine_predictions.specs.Refusals.{answered, value_unless, unless_refused};
ghost use Rattle.forming_predictions.specs.Splitting.{floor_half, half_flag, IsSplit, horizontal_half, vertical_half};
ghost use Rattle.forming_predictions.specs.Lines.{frame, field, field_lines};
ghost use Rattle.forming_predictions.specs.Means.{rounded};
ghost use Rattle.forming_predictions.specs.Forming.{formed, predicted_block};
ghost use Rattle.forming_predictions.specs.Refusals.{forming_number, plane_fits};
ghost use Rattle.forming_predictions.specs.Planes.{read_at, plane_refused, sample_refused, block_refused};

use block::{form, moved, neighbour};
use checks::{check_block, check_plane, check_sample};
pub use parity::NoMeaning;
pub use reference::Reference;
use reference::view_of;
use view::Sides;

mod block;
mod checks;
mod edges;
mod inside;
mod means;
mod narrow;
mod parity;
mod reference;
mod view;

/// The largest side of a plane.
pub const LARGEST_SIDE: usize = 16384;
/// The largest side of a block.
pub const LARGEST_BLOCK_SIDE: usize = 16;
/// The positions that are taken: the first one, the last one of a block, and the last one of a sample, which is 15 further.
pub const FIRST_POSITION: i32 = -32768;

pub const LAST_BLOCK: i32 = 32767;

pub const LAST_SAMPLE: i32 = 32782;

/// The four cases of half_flag\[0\], the horizontal one, and half_flag\[1\].
#[derive(Clone, Copy, Debug, PartialEq, Eq)]
pub enum HalfPattern {
    Integer,
    HalfHorizontal,
    HalfVertical,
    HalfBoth,
}

/// The flags of a pattern.
#[derive(Clone, Copy, Debug, PartialEq, Eq)]
pub struct HalfFlags {
    pub horizontal: bool,
    pub vertical: bool,
}

/// A component of a vector: whole samples, and whether a half is to be added.
#[derive(Clone, Copy, Debug, PartialEq, Eq)]
pub struct ComponentSplit {
    pub int_vec: i32,
    pub half_flag: bool,
}

/// A vector, split.
#[derive(Clone, Copy, Debug, PartialEq, Eq)]
pub struct SplitVector {
    pub horizontal: ComponentSplit,
    pub vertical: ComponentSplit,
}

/// The sides of a plane.
#[derive(Clone, Copy, Debug, PartialEq, Eq)]
pub struct PlaneSides {
    pub width: usize,
    pub height: usize,
}

/// A plane that is read: its sides, and its samples, row after row.
#[derive(Clone, Copy, Debug, PartialEq, Eq)]
pub struct ReferencePlane<'a> {
    pub sides: PlaneSides,
    pub samples: &'a [u8],
}

/// A field of a frame: the top field has rows 0, 2, 4 and so on, the bottom field rows 1, 3, 5.
#[derive(Clone, Copy, Debug, PartialEq, Eq)]
pub enum FieldParity {
    Top,
    Bottom,
}

/// A field of a plane that holds both fields, row by row in turn.
#[derive(Clone, Copy, Debug, PartialEq, Eq)]
pub struct FieldReference<'a> {
    pub plane: ReferencePlane<'a>,
    pub parity: FieldParity,
}

/// The sides of a predicted block.
#[derive(Clone, Copy, Debug, PartialEq, Eq)]
pub struct BlockSize {
    pub width: usize,
    pub height: usize,
}

/// Why a call of this layer refuses. Each reason has its number of docs/SCOPE.md.
#[derive(Clone, Copy, Debug, PartialEq, Eq)]
pub enum FormingRefusal {
    /// A plane's length is not width times height, or a side or a position is outside the domain.
    OutsideDomain = 14,
    /// The output is not as long as the block.
    WrongLength = 18,
}

impl From<FormingRefusal> for u32 {
    ghost from_gives = { λ refusal number. number ≡ forming_number refusal };

    fn from(refusal: FormingRefusal) -> u32 {
        refusal as u32
    }
}

// ---- vectors

impl HalfPattern {
    /// The pattern with these flags.
    pub fn from_flags(half_horiz: bool, half_vert: bool) -> Self
        ensures { (horizontal_half result ≡ half_horiz) × (vertical_half result ≡ half_vert) }
    {
        match (half_horiz, half_vert) {
            (false, false) => HalfPattern::Integer,
            (true, false) => HalfPattern::HalfHorizontal,
            (false, true) => HalfPattern::HalfVertical,
            (true, true) => HalfPattern::HalfBoth,
        }
    }

    /// The pattern's flags.
    pub fn flags(self) -> HalfFlags
        ensures { (result.horizontal ≡ horizontal_half self) × (result.vertical ≡ vertical_half self) }
    {
        HalfFlags {
            horizontal: matches!(self, HalfPattern::HalfHorizontal | HalfPattern::HalfBoth),
            vertical: matches!(self, HalfPattern::HalfVertical | HalfPattern::HalfBoth),
        }
    }

    /// Whether more than one sample is read.
    pub fn is_half_pel(self) -> bool
        ensures { result ≡ (horizontal_half self || vertical_half self) }
    {
        self != HalfPattern::Integer
    }
}

impl SplitVector {
    /// The pattern of the two half flags.
    pub fn pattern(self) -> HalfPattern
        ensures { (horizontal_half result ≡ self.horizontal.half_flag) × (vertical_half result ≡ self.vertical.half_flag) }
    {
        HalfPattern::from_flags(self.horizontal.half_flag, self.vertical.half_flag)
    }
}

/// The whole part, floored: a shift, since division would truncate.
#[tactic(auto, using(crate::proofs::Splitting::half_is))]
fn whole_part(vector: i32) -> i32
    ensures { result ≡ floor_half vector }
{
    vector >> 1
}

/// The lowest bit, also of a negative number.
fn is_half(vector: i32) -> bool
    ensures { result ≡ half_flag vector }
{
    vector & 1 != 0
}

/// Whole samples and a half of a component that counts half samples: -3 is -2 and a half.
pub fn split_component(vector: i32) -> ComponentSplit
    ensures { IsSplit vector result }
{
    ComponentSplit {
        int_vec: whole_part(vector),
        half_flag: is_half(vector),
    }
}

/// The same for both components.
pub fn split_vector(horizontal: i32, vertical: i32) -> SplitVector
    ensures { IsSplit horizontal result.horizontal × IsSplit vertical result.vertical }
{
    SplitVector {
        horizontal: split_component(horizontal),
        vertical: split_component(vertical),
    }
}

impl<'a> FieldReference<'a> {
    /// The number of the field's lines. It is a difference for the top field, since `height + 1` may be too large a number.
    #[tactic(auto, unfolding(crate::specs::Lines::field_lines))]
    pub fn height(self) -> usize
        ensures { result ≡ field_lines self.entry.parity self.entry.plane.sides.height }
    {
        let h = self.plane.sides.height;
        let parity = self.parity;
        match parity {
            FieldParity::Top => h - h / 2,
            FieldParity::Bottom => h / 2,
        }
    }
}

// ---- refusals

/// Whether a plane with so many samples is in the domain.
#[tactic(auto, unfolding(crate::specs::Refusals::plane_fits))]
pub fn plane_fits(sides: PlaneSides, count: usize) -> bool
    ensures { result ≡ plane_fits sides.width sides.height count }
{
    if sides.width > LARGEST_SIDE {
        return false;
    }
    if sides.height > LARGEST_SIDE {
        return false;
    }
    count == sides.width * sides.height
}

// ---- the calls

/// The sample at (x, y). A plane has no samples where one of its sides is 0.
#[tactic(auto, using(crate::proofs::Views::no_sample, crate::proofs::Refusals::plane_right))]
fn sample_of<'a, R: Reference<'a>>(reference: R, x: i32, y: i32) -> Result<u8, FormingRefusal>
    ensures answer { result ≡ answered (plane_refused (R.plane reference)) (read_at (R.lines reference) (R.plane reference) x y) }
    ensures refusal { result_err result ≡ plane_refused (R.plane reference) }
    ensures value { result_ok result ≡ value_unless (result_err result) (read_at (R.lines reference) (R.plane reference) x y) }
{
    let plane = reference.plane();
    check_plane(plane)?;
    if plane.samples.len() == 0 {
        return Ok(0);
    }
    Ok(view_of(reference).sample(x, y))
}

impl<'a> ReferencePlane<'a> {
    /// The sample at (x, y), which is clamped to the plane: any position is taken. It refuses a plane that is outside the domain or whose
    /// samples are not width times height.
    pub fn sample(self, x: i32, y: i32) -> Result<u8, FormingRefusal>
        ensures answer { result ≡ answered (plane_refused self.entry) (read_at frame self.entry x y) }
        ensures refusal { result_err result ≡ plane_refused self.entry }
        ensures value { result_ok result ≡ value_unless (result_err result) (read_at frame self.entry x y) }
    {
        sample_of(self, x, y)
    }
}

impl<'a> FieldReference<'a> {
    /// The sample of the field at (x, y): y is clamped to the field's lines, x to the plane. It is a method beside the plane's, since
    /// docs/SCOPE.md asks for both.
    pub fn sample(self, x: i32, y: i32) -> Result<u8, FormingRefusal>
        ensures answer { result ≡ answered (plane_refused self.entry.plane) (read_at (field self.entry.parity) self.entry.plane x y) }
        ensures refusal { result_err result ≡ plane_refused self.entry.plane }
        ensures value { result_ok result ≡ value_unless (result_err result) (read_at (field self.entry.parity) self.entry.plane x y) }
    {
        sample_of(self, x, y)
    }
}

/// The predicted sample at (x, y) of a frame or of a field, by a vector in half samples; of a field, y and the vector count its lines. It
/// refuses a plane as `sample` does, and a position outside −32,768 to 32,782.
#[tactic(auto, using(crate::proofs::Reading::sample_accepted, crate::proofs::Reading::same_count, crate::proofs::Forming::empty_formed, crate::proofs::Refusals::sample_right, crate::proofs::Refusals::plane_none))]
pub fn predict_sample<'a, R: Reference<'a>>(
    reference: R,
    x: i32,
    y: i32,
    horizontal: i32,
    vertical: i32,
) -> Result<u8, FormingRefusal>
    ensures answer { result ≡ answered (sample_refused (R.plane reference) x y) (formed rounded (read_at (R.lines reference) (R.plane reference)) x y horizontal vertical) }
    ensures refusal { result_err result ≡ sample_refused (R.plane reference) x y }
    ensures value { result_ok result ≡ value_unless (result_err result) (formed rounded (read_at (R.lines reference) (R.plane reference)) x y horizontal vertical) }
{
    let plane = reference.plane();
    check_sample(plane, x, y)?;
    if plane.samples.len() == 0 {
        return Ok(0);
    }
    Ok(view_of(reference).form_sample(
        moved(x, horizontal),
        moved(y, vertical),
        neighbour(horizontal, vertical),
    ))
}

/// Writes the predicted block of a frame or of a field, row after row, to `out`; its first sample is at (top_left_x, top_left_y), and of a
/// field the position and the vector count its lines. It refuses a plane as `sample` does, a block side outside 1 to 16, a position outside
/// −32,768 to 32,767, and then an output that is not width times height bytes long; a refusal writes nothing.
#[tactic(auto, using(crate::proofs::Reading::block_accepted, crate::proofs::Reading::same_count, crate::proofs::Refusals::plane_none))]
pub fn predict_block<'a, R: Reference<'a>>(
    reference: R,
    top_left_x: i32,
    top_left_y: i32,
    size: BlockSize,
    horizontal: i32,
    vertical: i32,
    out: &mut [u8],
) -> Result<(), FormingRefusal>
    ensures answer { result ≡ answered (block_refused (R.plane reference) top_left_x top_left_y size.width size.height (length out.old)) tt }
    ensures buffer { let read = read_at (R.lines reference) (R.plane reference) in
        let block = predicted_block rounded read size.width size.height top_left_x top_left_y horizontal vertical in
        out.new ≡ unless_refused (result_err result) block out.old }
{
    let plane = reference.plane();
    check_block(plane, top_left_x, top_left_y, size, out.len())?;
    if plane.samples.len() == 0 {
        out.fill(0);
        return Ok(());
    }
    form(
        view_of(reference),
        moved(top_left_x, horizontal),
        moved(top_left_y, vertical),
        neighbour(horizontal, vertical),
        Sides {
            width: size.width,
            height: size.height,
        },
        out,
    );
    Ok(())
}
