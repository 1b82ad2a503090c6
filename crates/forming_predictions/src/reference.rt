//! What predictions are formed from: a plane as a frame, or one of its fields.

ghost use Rattle.std.specs.Prelude.{◌≡◌, None, Some, ◌<◌, ℤ};
ghost use Rattle.forming_predictions.specs.Lines.{Lines, frame, field};
ghost use Rattle.forming_predictions.specs.Planes.{lines_by, read_at, count_of, plane_refused};
ghost use Rattle.forming_predictions.specs.inner.Views.{ReadsAs};
ghost use Rattle.forming_predictions.specs.inner.Blocks.{read};
ghost use Rattle.forming_predictions.specs.declared.ReferencePlane.{ReferencePlane};

use crate::view::View;
use crate::{FieldParity, FieldReference, ReferencePlane};

/// What a prediction is formed from: a plane as a frame, or one of its fields.
pub trait Reference<'a>: Copy {
    ghost plane: { Self → ReferencePlane };

    ghost lines: { Self → Lines };

    /// The plane that is read.
    fn plane(self) -> ReferencePlane<'a>
        ensures { result ≡ plane self };

    /// The field whose lines are read, or none, where all rows are.
    fn parity(self) -> Option<FieldParity>
        ensures { lines_by result ≡ lines self };
}

impl<'a> Reference<'a> for ReferencePlane<'a> {
    ghost plane = { λ reference. reference };

    ghost lines = { λ reference. frame };

    fn plane(self) -> ReferencePlane<'a> {
        self
    }

    fn parity(self) -> Option<FieldParity> {
        None
    }
}

impl<'a> Reference<'a> for FieldReference<'a> {
    ghost plane = { λ reference. reference.plane };

    ghost lines = { λ reference. field reference.parity };

    fn plane(self) -> ReferencePlane<'a> {
        self.plane
    }

    fn parity(self) -> Option<FieldParity> {
        Some(self.parity)
    }
}

/// The rows of a plane that are read as lines: row `first`, then every `step`-th, `count` of them.
#[derive(Clone, Copy)]
struct Rows {
    first: usize,
    step: usize,
    count: usize,
}

/// All rows, or a field's. A field without lines reads the plane's only row.
#[tactic(auto, using(crate::proofs::Views::frame_reads, crate::proofs::Views::field_reads, crate::proofs::Views::no_field_reads))]
fn rows_of(plane: ReferencePlane<'_>, parity: Option<FieldParity>) -> Rows
    ensures { ReadsAs (lines_by parity) plane.entry.sides.height result.first result.step result.count }
{
    let all = Rows {
        first: 0,
        step: 1,
        count: plane.sides.height,
    };
    match parity {
        None => all,
        Some(parity) => {
            let field = FieldReference {
                plane: plane,
                parity: parity,
            };
            let count = field.height();
            if count == 0 {
                return all;
            }
            Rows {
                first: parity.into(),
                step: 2,
                count: count,
            }
        }
    }
}

/// The lines of a plane that has samples.
#[tactic(auto, using(crate::proofs::Views::rows_read, crate::proofs::Refusals::plane_right))]
pub(crate) fn view_of<'a, R: Reference<'a>>(reference: R) -> View<'a>
    requires { (plane_refused (R.plane reference) ≡ None) × (0 < count_of (R.plane reference)) }
    ensures { (x : ℤ) (y : ℤ) → read result x y ≡ read_at (R.lines reference) (R.plane reference) x y }
{
    let plane = reference.plane();
    let rows = rows_of(plane, reference.parity());
    View {
        samples: plane.samples,
        width: plane.sides.width,
        first: rows.first,
        step: rows.step,
        count: rows.count,
    }
}
