//! The lines of the entry points that predict. What is absent may have any numbers beside it, which are passed as they stand.
use drawn::References;
use entry_points::prediction::{
    fozdrik_predict_field_macroblock, fozdrik_predict_frame_macroblock,
};
use lists::{Cursor, Unread};
use std::alloc::Global;
use tally::{LONGEST, Lent};

/// What a frame declares.
#[derive(Clone, Copy)]
struct Declared {
    width: usize,
    height: usize,
    chroma_format: u32,
}

#[derive(Clone, Copy)]
struct Reference {
    present: u32,
    declared: Declared,
}

/// What stands in front of the motion.
#[derive(Clone, Copy)]
struct Macroblock {
    dest: Declared,
    mb_col: usize,
    mb_row: usize,
    forward: Reference,
    backward: Reference,
}

#[derive(Clone, Copy)]
struct Vector {
    horizontal: i32,
    vertical: i32,
}

#[derive(Clone, Copy)]
struct FrameDirection {
    present: u32,
    vector: Vector,
}

#[derive(Clone, Copy)]
struct FieldVector {
    field: u32,
    vector: Vector,
}

#[derive(Clone, Copy)]
struct FieldDirection {
    present: u32,
    top: FieldVector,
    bottom: FieldVector,
}

impl Declared {
    /// `WIDTH HEIGHT CHROMA`.
    fn read(case: &mut Cursor<'_>) -> Result<Declared, Unread> {
        Ok(Declared {
            width: case.number()?,
            height: case.number()?,
            chroma_format: case.number()?,
        })
    }
}

impl Reference {
    /// `PRESENT WIDTH HEIGHT CHROMA`.
    fn read(case: &mut Cursor<'_>) -> Result<Reference, Unread> {
        Ok(Reference {
            present: case.number()?,
            declared: Declared::read(case)?,
        })
    }
}

impl Macroblock {
    /// `WIDTH HEIGHT CHROMA MB_COL MB_ROW`, and each reference.
    fn read(case: &mut Cursor<'_>) -> Result<Macroblock, Unread> {
        Ok(Macroblock {
            dest: Declared::read(case)?,
            mb_col: case.number()?,
            mb_row: case.number()?,
            forward: Reference::read(case)?,
            backward: Reference::read(case)?,
        })
    }
}

impl Vector {
    /// `HORIZONTAL VERTICAL`.
    fn read(case: &mut Cursor<'_>) -> Result<Vector, Unread> {
        Ok(Vector {
            horizontal: case.number()?,
            vertical: case.number()?,
        })
    }
}

impl FrameDirection {
    /// `PRESENT HORIZONTAL VERTICAL`.
    fn read(case: &mut Cursor<'_>) -> Result<FrameDirection, Unread> {
        Ok(FrameDirection {
            present: case.number()?,
            vector: Vector::read(case)?,
        })
    }
}

impl FieldVector {
    /// `FIELD HORIZONTAL VERTICAL`.
    fn read(case: &mut Cursor<'_>) -> Result<FieldVector, Unread> {
        Ok(FieldVector {
            field: case.number()?,
            vector: Vector::read(case)?,
        })
    }
}

impl FieldDirection {
    /// `PRESENT FIELD HORIZONTAL VERTICAL FIELD HORIZONTAL VERTICAL`: the top field's vector before the bottom field's.
    fn read(case: &mut Cursor<'_>) -> Result<FieldDirection, Unread> {
        Ok(FieldDirection {
            present: case.number()?,
            top: FieldVector::read(case)?,
            bottom: FieldVector::read(case)?,
        })
    }
}

/// `FILL LENGTH ANSWER AFTER`: makes the call, and compares the number and the output.
fn compared<C: FnOnce(&mut [u8]) -> u32>(
    alloc: Global,
    case: &mut Cursor<'_>,
    call: C,
) -> Result<bool, Unread>
    requires { C.IsAlwaysCallable call }
{
    let mut out = Lent::filled(alloc, case)?;
    let answer = case.number::<u32>()?;
    let after = case.bytes(alloc, LONGEST)?;
    let given = call(out.lent());
    Ok(given == answer && out.is_as_listed(&after))
}

/// `4 WIDTH HEIGHT CHROMA MB_COL MB_ROW`, `PRESENT WIDTH HEIGHT CHROMA` of each reference, `PRESENT HORIZONTAL VERTICAL` of each direction,
/// `FILL LENGTH ANSWER AFTER`, from WIDTH on. This call and the next one are two, with the numbers one by one, since C's are.
pub(crate) fn frame(
    alloc: Global,
    references: &References,
    case: &mut Cursor<'_>,
) -> Result<bool, Unread> {
    let m = Macroblock::read(case)?;
    let d = FrameDirection::read(case)?;
    let e = FrameDirection::read(case)?;
    let forward = &references.forward;
    let backward = &references.backward;
    compared(alloc, case, |out| {
        fozdrik_predict_frame_macroblock(
            m.dest.width,
            m.dest.height,
            m.dest.chroma_format,
            m.mb_col,
            m.mb_row,
            m.forward.present,
            m.forward.declared.width,
            m.forward.declared.height,
            m.forward.declared.chroma_format,
            forward.y.sides.width,
            forward.y.sides.height,
            forward.cb.sides.width,
            forward.cb.sides.height,
            forward.cr.sides.width,
            forward.cr.sides.height,
            &forward.y.samples,
            &forward.cb.samples,
            &forward.cr.samples,
            m.backward.present,
            m.backward.declared.width,
            m.backward.declared.height,
            m.backward.declared.chroma_format,
            backward.y.sides.width,
            backward.y.sides.height,
            backward.cb.sides.width,
            backward.cb.sides.height,
            backward.cr.sides.width,
            backward.cr.sides.height,
            &backward.y.samples,
            &backward.cb.samples,
            &backward.cr.samples,
            d.present,
            d.vector.horizontal,
            d.vector.vertical,
            e.present,
            e.vector.horizontal,
            e.vector.vertical,
            out,
        )
    })
}

/// The same with 5 and `PRESENT FIELD HORIZONTAL VERTICAL FIELD HORIZONTAL VERTICAL` of each direction.
pub(crate) fn field(
    alloc: Global,
    references: &References,
    case: &mut Cursor<'_>,
) -> Result<bool, Unread> {
    let m = Macroblock::read(case)?;
    let d = FieldDirection::read(case)?;
    let e = FieldDirection::read(case)?;
    let forward = &references.forward;
    let backward = &references.backward;
    compared(alloc, case, |out| {
        fozdrik_predict_field_macroblock(
            m.dest.width,
            m.dest.height,
            m.dest.chroma_format,
            m.mb_col,
            m.mb_row,
            m.forward.present,
            m.forward.declared.width,
            m.forward.declared.height,
            m.forward.declared.chroma_format,
            forward.y.sides.width,
            forward.y.sides.height,
            forward.cb.sides.width,
            forward.cb.sides.height,
            forward.cr.sides.width,
            forward.cr.sides.height,
            &forward.y.samples,
            &forward.cb.samples,
            &forward.cr.samples,
            m.backward.present,
            m.backward.declared.width,
            m.backward.declared.height,
            m.backward.declared.chroma_format,
            backward.y.sides.width,
            backward.y.sides.height,
            backward.cb.sides.width,
            backward.cb.sides.height,
            backward.cr.sides.width,
            backward.cr.sides.height,
            &backward.y.samples,
            &backward.cb.samples,
            &backward.cr.samples,
            d.present,
            d.top.field,
            d.top.vector.horizontal,
            d.top.vector.vertical,
            d.bottom.field,
            d.bottom.vector.horizontal,
            d.bottom.vector.vertical,
            e.present,
            e.top.field,
            e.top.vector.horizontal,
            e.top.vector.vertical,
            e.bottom.field,
            e.bottom.vector.horizontal,
            e.bottom.vector.vertical,
            out,
        )
    })
}
