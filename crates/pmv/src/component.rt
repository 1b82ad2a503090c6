//! ISO/IEC 13818-2, 7.6.3.1: one component of a motion vector, in half samples.
ghost use Rattle.std.specs.Prelude.{◌≡◌, false, ◌+◌, ◌≤◌, ◌+ℤ◌, ◌-ℤ◌, None};
ghost use Rattle.std.specs.Result.{result_ok, result_err};
ghost use Rattle.laws.proofs.Bounded.{Within};
ghost use Rattle.combine_predictions.specs.Refusals.{answered, value_unless};
ghost use Rattle.pmv.specs.Refusals.{vector_number};
ghost use Rattle.pmv.specs.Delta.{scale, is_plain, delta, residual_value, f_code_fits, code_fits, residual_refusal, f_code_refusal, delta_refusal};
ghost use Rattle.pmv.specs.Component.{range_of, in_range, halves, prediction, raised, lowered, vector_of, new_predictor, from_delta, from_delta_refusal, delta_of, component_of, component_refusal};
ghost use Rattle.pmv.specs.inner.Bounds.{Small};

use crate::kinds::{Component, MvFormat, PictureStructure};

/// Why a component is refused. Each reason has its number of docs/SCOPE.md.
#[derive(Clone, Copy, Debug, PartialEq, Eq)]
pub enum VectorRefusal {
    /// f_code outside 1..9.
    FCodeOutside = 1,
    /// motion_code outside -16..16.
    CodeOutside = 2,
    /// A motion_residual where the syntax has none.
    ResidualForbidden = 3,
    /// No motion_residual where the syntax has one.
    ResidualMissing = 4,
    /// delta outside low..high.
    DeltaOutside = 5,
    /// The vector is outside low..high after one wrap.
    VectorOutside = 6,
}

impl From<VectorRefusal> for u32 {
    ghost from_gives = { λ refusal number. number ≡ vector_number refusal };

    fn from(refusal: VectorRefusal) -> u32 {
        refusal as u32
    }
}

/// The ends of the range of vectors, and how many numbers it has.
#[derive(Clone, Copy, Debug, PartialEq, Eq)]
pub struct VectorRange {
    pub low: i32,
    pub high: i32,
    pub range: i32,
}

/// A component of a vector, the predictor to be stored, and what they were made of.
#[derive(Clone, Copy, Debug, PartialEq, Eq)]
pub struct ReconstructedComponent {
    pub vector_prime: i32,
    pub new_pmv: i32,
    pub delta: i32,
    pub range: i32,
}

// ---- delta

/// f, which is 2 to the power f_code - 1.
#[tactic(auto, using(crate::proofs::Deltas::f_code_range, crate::proofs::Deltas::scale_range, crate::proofs::Deltas::shifted))]
fn scale_of(f_code: u8) -> u32
    requires { f_code_refusal f_code ≡ None }
    ensures { (result ≡ scale f_code) × (1 ≤ result) × (result ≤ 256) }
{
    1 << (f_code - 1)
}

#[tactic(auto, unfolding(crate::specs::Delta::f_code_fits))]
fn f_code_fits(f_code: u8) -> bool
    ensures { result ≡ f_code_fits f_code }
{
    (1 <= f_code) & (f_code <= 9)
}

#[tactic(auto, unfolding(crate::specs::Delta::code_fits))]
fn code_fits(motion_code: i32) -> bool
    ensures { result ≡ code_fits motion_code }
{
    (-16 <= motion_code) & (motion_code <= 16)
}

/// A motion_code that fits, and f. They are small, so that no product or sum with them wraps.
#[derive(Clone, Copy)]
struct ScaledCode {
    motion_code: i32,
    f: u32,
    ghost code: { Within 16 motion_code },
    ghost scale: { f ≤ 256 },
}

impl ScaledCode {
    /// Whether delta is the code, and there is no residual.
    #[tactic(auto, using(crate::proofs::Deltas::plain_bits))]
    fn is_plain(self) -> bool
        ensures { result ≡ is_plain self.f self.motion_code }
    {
        (self.f == 1) | (self.motion_code == 0)
    }

    /// delta of a code that is not plain.
    #[tactic(auto, using(crate::proofs::Deltas::not_plain), unfolding(crate::specs::Delta::delta))]
    fn with_residual(self, residual: u8) -> i32
        requires { is_plain self.f self.motion_code ≡ false }
        ensures { result ≡ delta self.f self.motion_code residual }
    {
        let m = (self.motion_code.unsigned_abs() - 1) * self.f + residual as u32 + 1;
        let d = m as i32;
        if self.motion_code < 0 { -d } else { d }
    }

    /// delta. Where there is no residual f is asked for first: where it is 1, no jump depends on the code. The two tests are not joined by `||`:
    /// so joined, a vector of f_codes 1 took 164 instructions for 152.
    #[tactic(auto, unfolding(crate::specs::Delta::is_plain, crate::specs::Delta::delta))]
    fn delta(self, motion_residual: Option<u8>) -> Result<i32, VectorRefusal>
        ensures { result ≡ answered (residual_refusal (is_plain self.f self.motion_code) motion_residual) (delta self.f self.motion_code (residual_value motion_residual)) }
    {
        match motion_residual {
            None if self.f == 1 => Ok(self.motion_code),
            None if self.motion_code == 0 => Ok(self.motion_code),
            None => Err(VectorRefusal::ResidualMissing),
            Some(_) if self.is_plain() => Err(VectorRefusal::ResidualForbidden),
            Some(residual) => Ok(self.with_residual(residual)),
        }
    }
}

/// How far a component is from its prediction, in half samples. A code, its residual and its f_code are three parameters, as the Rust's: no
/// private function takes all three.
#[tactic(auto, using(crate::proofs::Deltas::code_within), unfolding(crate::specs::Delta::code_refusal, crate::specs::Delta::delta_refusal))]
pub fn compute_delta(
    motion_code: i32,
    motion_residual: Option<u8>,
    f_code: u8,
) -> Result<i32, VectorRefusal>
    ensures answer { result ≡ answered (delta_refusal f_code motion_code motion_residual) (delta_of f_code motion_code motion_residual) }
    ensures refusal { result_err result ≡ delta_refusal f_code motion_code motion_residual }
    ensures value { result_ok result ≡ value_unless (result_err result) (delta_of f_code motion_code motion_residual) }
{
    if !f_code_fits(f_code) {
        return Err(VectorRefusal::FCodeOutside);
    }
    if !code_fits(motion_code) {
        return Err(VectorRefusal::CodeOutside);
    }
    let code = ScaledCode {
        motion_code: motion_code,
        f: scale_of(f_code),
    };
    code.delta(motion_residual)
}

// ---- range

/// The range of an f_code. Its numbers are small, so that no sum with them wraps.
#[derive(Clone, Copy)]
struct Bounds {
    ends: VectorRange,
    ghost small: { Small ends },
}

/// The range of vectors that an f_code gives.
pub fn vector_range(f_code: u8) -> Result<VectorRange, VectorRefusal>
    ensures answer { result ≡ answered (f_code_refusal f_code) (range_of (scale f_code)) }
    ensures refusal { result_err result ≡ f_code_refusal f_code }
    ensures value { result_ok result ≡ value_unless (result_err result) (range_of (scale f_code)) }
{
    if !f_code_fits(f_code) {
        return Err(VectorRefusal::FCodeOutside);
    }
    Ok(Bounds::of_scale(scale_of(f_code)).ends)
}

impl Bounds {
    /// low, high and range for f.
    #[tactic(auto, using(crate::proofs::Ranges::range_small, crate::proofs::Ranges::low_fits, crate::proofs::Ranges::high_fits), unfolding(crate::specs::Component::range_of))]
    fn of_scale(f: u32) -> Self
        requires { f ≤ 256 }
        ensures { result.ends ≡ range_of f }
    {
        let n = (16 * f) as i32;
        Bounds {
            ends: VectorRange {
                low: 0 - n,
                high: n - 1,
                range: (32 * f) as i32,
            },
        }
    }

    /// How far v is above low: by it, one comparison tests both ends.
    fn above_low(self, v: i64) -> i64
        requires { Within 4294983680 v }
        ensures { result ≡ v -ℤ self.ends.low }
    {
        v - self.ends.low as i64
    }

    #[tactic(auto, using(crate::proofs::Ranges::range_fits, crate::proofs::Ranges::from_low, crate::proofs::Ranges::to_high, laws::proofs::Bits::widened))]
    fn contains(self, v: i64) -> bool
        requires { Within 4294983680 v }
        ensures { result ≡ in_range self.ends v }
    {
        let above = self.above_low(v);
        (0 <= above) & (above < self.ends.range as i64)
    }

    fn raise(self, v: i64) -> i64
        requires { Within 4294967296 v }
        ensures { (result ≡ raised self.ends v) × Within 4294975488 result }
    {
        if v < self.ends.low as i64 {
            return v + self.ends.range as i64;
        }
        v
    }

    fn lower(self, v: i64) -> i64
        requires { Within 4294975488 v }
        ensures { (result ≡ lowered self.ends v) × Within 4294983680 result }
    {
        if self.ends.range as i64 <= self.above_low(v) {
            return v - self.ends.range as i64;
        }
        v
    }

    /// The vector before its last test.
    #[tactic(auto, unfolding(crate::specs::Component::wrapped))]
    fn wrap(self, prior_pmv: i32, halved: bool, offset: i32) -> i64
        ensures { (result ≡ vector_of self.ends halved prior_pmv offset) × Within 4294983680 result }
    {
        self.lower(self.raise(summed(predicted(prior_pmv, halved), offset)))
    }

    /// A component from its delta.
    #[tactic(auto, using(laws::proofs::Bits::widened), unfolding(crate::specs::Component::from_delta_refusal))]
    fn component(
        self,
        halved: bool,
        prior_pmv: i32,
        offset: i32,
    ) -> Result<ReconstructedComponent, VectorRefusal>
        ensures { result ≡ answered (from_delta_refusal self.ends halved prior_pmv offset) (from_delta self.ends halved prior_pmv offset) }
    {
        if !self.contains(offset as i64) {
            return Err(VectorRefusal::DeltaOutside);
        }
        let v = self.wrap(prior_pmv, halved, offset);
        if !self.contains(v) {
            return Err(VectorRefusal::VectorOutside);
        }
        let vector = v as i32;
        Ok(ReconstructedComponent {
            vector_prime: vector,
            new_pmv: next_predictor(vector, halved),
            delta: offset,
            range: self.ends.range,
        })
    }
}

// ---- a component

/// Whether the predictor counts frame lines and the vector field lines.
#[tactic(auto, unfolding(crate::specs::Component::halves))]
fn halves_prediction(mv_format: MvFormat, picture: PictureStructure, t: Component) -> bool
    ensures { result ≡ halves mv_format picture t }
{
    mv_format.is_field() & (t.is_vertical() & picture.is_frame())
}

/// The prior predictor, or its half, floored: a shift, since division would truncate.
#[tactic(auto, using(forming_predictions::proofs::Splitting::half_is, forming_predictions::proofs::Splitting::floor_fits))]
fn predicted(prior_pmv: i32, halved: bool) -> i32
    ensures { result ≡ prediction halved prior_pmv }
{
    if halved {
        return prior_pmv >> 1;
    }
    prior_pmv
}

/// In 64 bits: a prior may be any i32.
fn summed(base: i32, offset: i32) -> i64
    ensures { (result ≡ base +ℤ offset) × Within 4294967296 result }
{
    base as i64 + offset as i64
}

/// The predictor to be stored counts frame lines again.
fn next_predictor(vector: i32, halved: bool) -> i32
    requires { Within 4096 vector }
    ensures { result ≡ new_predictor halved vector }
{
    if halved {
        return vector * 2;
    }
    vector
}

/// A component of a vector from what the stream has of it and the predictor PMV\[r\]\[s\]\[t\]. Nothing is stored.
#[tactic(auto, unfolding(crate::specs::Delta::delta_refusal))]
pub fn reconstruct_component(
    motion_code: i32,
    motion_residual: Option<u8>,
    f_code: u8,
    prior_pmv: i32,
    mv_format: MvFormat,
    picture: PictureStructure,
    t: Component,
) -> Result<ReconstructedComponent, VectorRefusal>
    ensures answer { result ≡ answered (component_refusal f_code motion_code motion_residual prior_pmv (halves mv_format picture t)) (component_of f_code motion_code motion_residual prior_pmv (halves mv_format picture t)) }
    ensures refusal { result_err result ≡ component_refusal f_code motion_code motion_residual prior_pmv (halves mv_format picture t) }
    ensures value { result_ok result ≡ value_unless (result_err result) (component_of f_code motion_code motion_residual prior_pmv (halves mv_format picture t)) }
{
    let halved = halves_prediction(mv_format, picture, t);
    let delta = compute_delta(motion_code, motion_residual, f_code)?;
    Bounds::of_scale(scale_of(f_code)).component(halved, prior_pmv, delta)
}
