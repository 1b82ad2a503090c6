//! Copying samples.
ghost use Rattle.std.specs.Prelude.{◌≡◌, cond, eqb, length};

/// Copies all samples to an output of their length. Where it has another, nothing is written. A loop, since a row of eight is then one load and
/// one store: by `copy_from_slice` a field-based macroblock took 285 instructions more.
pub fn copy_samples(from: &[u8], out: &mut [u8])
    ensures { out.new ≡ cond (eqb (length out.old) (length from.now)) from.now out.old }
{
    if out.len() != from.len() {
        return;
    }
    for k in 0..out.len() {
        out[k] = from[k];
    }
}
