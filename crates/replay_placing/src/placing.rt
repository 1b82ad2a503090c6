//! Placing a macroblock in planes that are drawn.
use drawn::{Draws, Extent};
use inter_reconstruction::frames::FrameSides;
use inter_reconstruction::placing::place_macroblock;
use lists::{Cursor, Unread};
use std::alloc::Global;
use tally::{LONGEST, number_of};

/// How many bytes behind those of a plane are drawn and compared.
const BEHIND: usize = 64;

/// No plane of a list has more samples.
const MOST_SAMPLES: usize = 262400;

/// The number that tells bytes in their order. The modulus is a prime and the factor one of its primitive roots, so that one other byte
/// gives another number, and so do two that are exchanged.
fn told(bytes: &[u8]) -> u64 {
    bytes.iter().fold(0, |h: u64, byte| {
        (h % 4294967291 * 1103515245 + *byte as u64) % 4294967291
    })
}

/// `1 WIDTH HEIGHT CHROMA`, `WIDTH HEIGHT LENGTH` of each plane, `MB_COL MB_ROW BYTES SEED ANSWER Y_AFTER CB_AFTER CR_AFTER`, from the first
/// WIDTH on: whether the number and all bytes of the planes are as listed, and what is behind the planes as it was.
pub(crate) fn macroblock(alloc: Global, case: &mut Cursor<'_>) -> Result<bool, Unread> {
    let geometry = drawn::geometry(case)?;
    let y = Extent::read(case, MOST_SAMPLES)?;
    let cb = Extent::read(case, MOST_SAMPLES)?;
    let cr = Extent::read(case, MOST_SAMPLES)?;
    let mb_col = case.number()?;
    let mb_row = case.number()?;
    let count = case.number::<usize>()?;
    let mut draws = Draws::from_seed(case.number()?);
    let answer = case.integer()?;
    let after = [
        case.number::<u64>()?,
        case.number::<u64>()?,
        case.number::<u64>()?,
    ];
    if answer < 0 || count > LONGEST {
        return Err(Unread::Malformed);
    }
    let bytes = draws.bytes(alloc, count)?;
    let mut y_room = draws.bytes(alloc, y.length + BEHIND)?;
    let mut cb_room = draws.bytes(alloc, cb.length + BEHIND)?;
    let mut cr_room = draws.bytes(alloc, cr.length + BEHIND)?;
    let given = place_macroblock(
        FrameSides {
            geometry,
            y: y.sides,
            cb: cb.sides,
            cr: cr.sides,
        },
        mb_col,
        mb_row,
        &bytes,
        &mut y_room[..y.length],
        &mut cb_room[..cb.length],
        &mut cr_room[..cr.length],
    );
    Ok(number_of(given) == answer && [told(&y_room), told(&cb_room), told(&cr_room)] == after)
}
