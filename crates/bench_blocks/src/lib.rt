//! The block predictors behind one C entry point, for the benchmark alone: no part of the card's interface. It answers 0 or the number
//! of a refusal.
#![tactic(auto)]

ghost use Rattle.std.specs.Prelude.{◌≡◌, length};
ghost use Rattle.std.specs.Result.{result_err};
ghost use Rattle.combine_predictions.specs.Refusals.{refusal_number, unless_refused};
ghost use Rattle.forming_predictions.specs.Lines.{sample_at};
ghost use Rattle.forming_predictions.specs.Means.{rounded};
ghost use Rattle.forming_predictions.specs.Forming.{predicted_block};
ghost use Rattle.forming_predictions.specs.Refusals.{forming_number, block_refusal};
ghost use Rattle.bench_blocks.specs.Sources.{lines_of};

use forming_predictions::{
    BlockSize, FieldParity, FieldReference, FormingRefusal, PlaneSides, ReferencePlane,
    predict_block,
};

/// 0, or the number of the refusal. Generic, as in `entry_points`, it would want a lemma beside it, for this one kind.
fn code_of(answer: Result<(), FormingRefusal>) -> u32
    ensures { result ≡ refusal_number forming_number (result_err answer) }
{
    match answer {
        Ok(()) => 0,
        Err(refusal) => u32::from(refusal),
    }
}

/// `from` is 0 for the top field, 1 for the bottom field, and else the frame.
#[unsafe(no_mangle)]
pub extern "C" fn fozdrik_bench_block(
    from: u32,
    samples: &[u8],
    width: usize,
    height: usize,
    x: i32,
    y: i32,
    block_width: usize,
    block_height: usize,
    horizontal: i32,
    vertical: i32,
    out: &mut [u8],
) -> u32
    ensures number { result ≡ refusal_number forming_number (block_refusal width height (length samples.now) x y block_width block_height (length out.old)) }
    ensures buffer { out.new ≡ unless_refused (block_refusal width height (length samples.now) x y block_width block_height (length out.old)) (predicted_block rounded (sample_at (lines_of from) width height samples.now) block_width block_height x y horizontal vertical) out.old }
{
    let plane = ReferencePlane {
        sides: PlaneSides {
            width: width,
            height: height,
        },
        samples: samples,
    };
    let size = BlockSize {
        width: block_width,
        height: block_height,
    };
    // Asked for first: with the frame as what `try_from` refuses, a block of 8 x 8 took 199 instructions for 195.
    if from > 1 {
        return code_of(predict_block(plane, x, y, size, horizontal, vertical, out));
    }
    let field = FieldReference {
        plane: plane,
        parity: FieldParity::try_from(from).unwrap_or(FieldParity::Bottom),
    };
    code_of(predict_block(field, x, y, size, horizontal, vertical, out))
}
