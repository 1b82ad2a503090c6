//! Rows of predicted samples, out of two rows of samples. The two rows, the column and the step to the right stay four parameters: a
//! struct of them would know that the rows are of one length, and each function would still ask for the columns that it reads. Local rows are
//! arrays: there is no heap in the layers.

ghost use Rattle.std.specs.Prelude.{◌≡◌, ℕ, ◌+◌, ◌≤◌, length, get_or};
ghost use Rattle.laws.specs.Tabulate.{tabulate};
ghost use Rattle.combine_predictions.specs.Averaging.{mean2, averaged};
ghost use Rattle.forming_predictions.specs.Means.{mean4};
ghost use Rattle.forming_predictions.specs.inner.Views.{two_of, four_of, Eights, RowFits};

use combine_predictions::average_predictions;

/// The mean of four samples, a half rounded up.
pub(crate) fn avg4(a: u8, b: u8, c: u8, d: u8) -> u8
    ensures { result ≡ mean4 a b c d }
{
    ((a as u16 + b as u16 + c as u16 + d as u16 + 2) / 4) as u8
}

/// Averaging refuses differing lengths alone, and these are equal.
pub(crate) fn mean2_samples(a: &[u8], b: &[u8], out: &mut [u8])
    requires { (length b.now ≡ length a.now) × (length out.old ≡ length a.now) }
    ensures { out.new ≡ averaged a.now b.now }
{
    let _ = average_predictions(a, b, out);
}

pub(crate) fn mean4_samples(a: &[u8], b: &[u8], c: &[u8], d: &[u8], out: &mut [u8])
    requires { (length b.now ≡ length a.now) × (length c.now ≡ length a.now) × (length d.now ≡ length a.now) × (length out.old ≡ length a.now) }
    ensures { out.new ≡ tabulate (length a.now) (λ (k : ℕ). mean4 (get_or a.now k 0) (get_or b.now k 0) (get_or c.now k 0) (get_or d.now k 0)) }
{
    for k in 0..out.len() {
        out[k] = avg4(a[k], b[k], c[k], d[k]);
    }
}

/// The loop has a fixed length, so that it is unrolled before `from` is known to be a local array; copied as a whole, eight samples would
/// be one number, put together sample by sample.
pub(crate) fn copy_samples<const N: usize>(from: &[u8; N], out: &mut [u8])
    requires { length out.old ≡ N }
    ensures { out.new ≡ from.now }
{
    for k in 0..N {
        out[k] = from[k];
    }
}

/// N means of two samples. They go through a local array: there the loop has a fixed length and writes nothing that it might read, and it
/// compiles to one instruction.
#[tactic(auto, using(crate::proofs::RowMeans::two_parts))]
pub(crate) fn two_row<const N: usize>(row: &[u8], below: &[u8], x: usize, dx: usize, out: &mut [u8])
    requires { RowFits row.now below.now x dx N × (length out.old ≡ N) }
    ensures { out.new ≡ tabulate N (two_of row.now below.now x dx) }
{
    let right = x + dx;
    let e = x + N;
    let f = right + N;
    let mut local = [0u8; N];
    mean2_samples(&row[x..e], &below[right..f], &mut local);
    copy_samples(&local, out);
}

/// The mean of four samples from the means of its two pairs and the mean of those. That one rounds twice: it is 1 too large where the mean
/// of a pair was rounded up, and it again.
#[tactic(auto, using(crate::proofs::Pairs::of_pairs))]
pub(crate) fn avg4_of_pairs(a: u8, b: u8, c: u8, d: u8, upper: u8, lower: u8, mean: u8) -> u8
    requires { (upper ≡ mean2 a b) × (lower ≡ mean2 c d) × (mean ≡ mean2 upper lower) }
    ensures { result ≡ mean4 a b c d }
{
    mean - (((a ^ b) | (c ^ d)) & (upper ^ lower) & 1)
}

/// Sixteen of these.
#[tactic(auto, using(laws::proofs::Filled::filled_none, laws::proofs::Tabulated::length_tab, laws::proofs::Tabulated::get_or_tab))]
pub(crate) fn sixteen_of_pairs(
    a: &[u8],
    b: &[u8],
    c: &[u8],
    d: &[u8],
    upper: &[u8],
    lower: &[u8],
    mean: &[u8],
    out: &mut [u8],
)
    requires a_len { (length a.now ≡ 16) × (length b.now ≡ 16) × (length c.now ≡ 16) × (length d.now ≡ 16) × (length out.old ≡ 16) }
    requires upper_value { (upper.now ≡ averaged a.now b.now) × (lower.now ≡ averaged c.now d.now) × (mean.now ≡ averaged upper.now lower.now) }
    ensures { out.new ≡ tabulate (length a.now) (λ (k : ℕ). mean4 (get_or a.now k 0) (get_or b.now k 0) (get_or c.now k 0) (get_or d.now k 0)) }
{
    for k in 0..16 {
        out[k] = avg4_of_pairs(a[k], b[k], c[k], d[k], upper[k], lower[k], mean[k]);
    }
}

/// Eight means of four samples, by their sums, through a local array as in `two_row`. Sixteen go another way, the faster one there: the two are
/// no one function over the number.
#[tactic(auto, using(crate::proofs::RowMeans::here_length, laws::proofs::Tabulated::tab_ext, laws::proofs::Parts::part_at), unfolding(crate::specs::inner::Views::four_of))]
pub(crate) fn four_eight(row: &[u8], below: &[u8], x: usize, dx: usize, out: &mut [u8])
    requires { RowFits row.now below.now x dx 8 × (length out.old ≡ 8) }
    ensures { out.new ≡ tabulate 8 (four_of row.now below.now x dx) }
{
    let right = x + dx;
    let e = x + 8;
    let f = right + 8;
    let mut local = [0u8; 8];
    mean4_samples(
        &row[x..e],
        &row[right..f],
        &below[x..e],
        &below[right..f],
        &mut local,
    );
    copy_samples(&local, out);
}

/// Sixteen means of four samples. A mean of two is one instruction for all sixteen, and these are formed of such means.
pub(crate) fn four_sixteen(row: &[u8], below: &[u8], x: usize, dx: usize, out: &mut [u8])
    requires { RowFits row.now below.now x dx 16 × (length out.old ≡ 16) }
    ensures { out.new ≡ tabulate 16 (four_of row.now below.now x dx) }
{
    let right = x + dx;
    let e = x + 16;
    let f = right + 16;
    let mut upper = [0u8; 16];
    let mut lower = [0u8; 16];
    let mut mean = [0u8; 16];
    let mut local = [0u8; 16];
    mean2_samples(&row[x..e], &row[right..f], &mut upper);
    mean2_samples(&below[x..e], &below[right..f], &mut lower);
    mean2_samples(&upper, &lower, &mut mean);
    sixteen_of_pairs(
        &row[x..e],
        &row[right..f],
        &below[x..e],
        &below[right..f],
        &upper,
        &lower,
        &mean,
        &mut local,
    );
    copy_samples(&local, out);
}

/// A row of 8 or 16 predicted samples out of two rows of the plane, which are one where `dy` is 0. Unless both steps are 1, two samples
/// are enough.
pub(crate) fn form_row(row: &[u8], below: &[u8], x: usize, dx: usize, dy: usize, out: &mut [u8])
    requires { RowFits row.now below.now x dx (length out.old) × (dx ≤ 1) × (dy ≤ 1) × (dy ≡ 0 → below.now ≡ row.now) × Eights (length out.old) }
    ensures { out.new ≡ tabulate (length out.old) (four_of row.now below.now x dx) }
{
    match (out.len() == 16, dx + dy == 2) {
        (true, true) => four_sixteen(row, below, x, dx, out),
        (true, false) => two_row::<16>(row, below, x, dx, out),
        (false, true) => four_eight(row, below, x, dx, out),
        (false, false) => two_row::<8>(row, below, x, dx, out),
    }
}

/// A row of fewer than eight.
#[tactic(auto, using(crate::proofs::RowMeans::here_length, laws::proofs::Tabulated::tab_ext, laws::proofs::Parts::part_at), unfolding(crate::specs::inner::Views::four_of))]
fn short_row(row: &[u8], below: &[u8], x: usize, dx: usize, out: &mut [u8])
    requires { RowFits row.now below.now x dx (length out.old) }
    ensures { out.new ≡ tabulate (length out.old) (four_of row.now below.now x dx) }
{
    let n = out.len();
    let right = x + dx;
    let e = x + n;
    let f = right + n;
    mean4_samples(
        &row[x..e],
        &row[right..f],
        &below[x..e],
        &below[right..f],
        out,
    );
}

/// A row of any width: the first eight and the last eight, which overlap; or fewer, in a loop that is unrolled since it is known to be
/// short.
pub(crate) fn any_row(row: &[u8], below: &[u8], x: usize, dx: usize, out: &mut [u8])
    requires { RowFits row.now below.now x dx (length out.old) × (length out.old ≤ 16) }
    ensures { out.new ≡ tabulate (length out.old) (four_of row.now below.now x dx) }
{
    let n = out.len();
    if n < 8 {
        short_row(row, below, x, dx, out);
        return;
    }
    let m = n - 8;
    four_eight(row, below, x, dx, &mut out[0..8]);
    four_eight(row, below, x + m, dx, &mut out[m..n]);
}
