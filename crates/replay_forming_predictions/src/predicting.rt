//! Samples and blocks of a plane.
use drawn::Plane;
use forming_predictions::{
    BlockSize, FieldParity, FieldReference, ReferencePlane, predict_block, predict_sample,
};
use lists::{Cursor, Unread};
use std::alloc::Global;
use tally::{LONGEST, Lent, number_and_value, number_of};

/// What is read: the whole frame, or a field of it.
#[derive(Clone, Copy)]
enum Source<'a> {
    Frame(ReferencePlane<'a>),
    Field(FieldReference<'a>),
}

/// The source with a number: 0 is the top field, 1 the bottom field, 2 the frame.
fn read_source<'a>(plane: &'a Plane, case: &mut Cursor<'_>) -> Result<Source<'a>, Unread> {
    let plane = plane.lent();
    match case.number::<u32>()? {
        2 => Ok(Source::Frame(plane)),
        number => {
            let parity = FieldParity::try_from(number).map_err(|_| Unread::Malformed)?;
            Ok(Source::Field(FieldReference { plane, parity }))
        }
    }
}

/// `7 FROM X Y ANSWER SAMPLE`, from FROM on.
pub(crate) fn sample(plane: &Plane, case: &mut Cursor<'_>) -> Result<bool, Unread> {
    let source = read_source(plane, case)?;
    let x = case.number()?;
    let y = case.number()?;
    let listed = (case.integer()?, case.integer()?);
    let given = match source {
        Source::Frame(plane) => plane.sample(x, y),
        Source::Field(field) => field.sample(x, y),
    };
    Ok(number_and_value(given.map(i64::from), 0) == listed)
}

/// `8 FROM X Y HORIZONTAL VERTICAL ANSWER SAMPLE`, from FROM on.
pub(crate) fn predicted_sample(plane: &Plane, case: &mut Cursor<'_>) -> Result<bool, Unread> {
    let source = read_source(plane, case)?;
    let x = case.number()?;
    let y = case.number()?;
    let horizontal = case.number()?;
    let vertical = case.number()?;
    let listed = (case.integer()?, case.integer()?);
    let given = match source {
        Source::Frame(plane) => predict_sample(plane, x, y, horizontal, vertical),
        Source::Field(field) => predict_sample(field, x, y, horizontal, vertical),
    };
    Ok(number_and_value(given.map(i64::from), 0) == listed)
}

/// `9 FROM X Y BLOCK_WIDTH BLOCK_HEIGHT HORIZONTAL VERTICAL FILL LENGTH ANSWER AFTER`, from FROM on: whether number and output are as
/// listed, and what is behind the output as it was.
pub(crate) fn block(alloc: Global, plane: &Plane, case: &mut Cursor<'_>) -> Result<bool, Unread> {
    let source = read_source(plane, case)?;
    let x = case.number()?;
    let y = case.number()?;
    let size = BlockSize {
        width: case.number()?,
        height: case.number()?,
    };
    let horizontal = case.number()?;
    let vertical = case.number()?;
    let mut room = Lent::filled(alloc, case)?;
    let answer = case.integer()?;
    let after = case.bytes(alloc, LONGEST)?;
    let out = room.lent();
    let given = match source {
        Source::Frame(plane) => predict_block(plane, x, y, size, horizontal, vertical, out),
        Source::Field(field) => predict_block(field, x, y, size, horizontal, vertical, out),
    };
    Ok(number_of(given) == answer && room.holds(&after))
}
