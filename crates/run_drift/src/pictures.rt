//! Nineteen pictures of 48 columns and 48 rows, 4:2:0. Unrounded samples are whole numbers, 8 to the power n of them to a grey step in picture n.
ghost use Rattle.std.specs.Prelude.{◌<◌, ◌≤◌};

use drawn::Draws;
use std::alloc::{AllocError, Global};
use std::io;

/// How many pictures there are: 64 bits end at picture 18.
const PICTURES: u32 = 19;

/// What a sample is of.
#[derive(Clone, Copy)]
pub(crate) enum Component {
    Y,
    Cb,
    Cr,
}

impl Component {
    pub(crate) const ALL: [Component; 3] = [Component::Y, Component::Cb, Component::Cr];

    /// The columns and rows of a macroblock's part in a plane.
    pub(crate) fn block(self) -> u8
        ensures { (0 < result) × (result ≤ 16) }
    {
        match self {
            Component::Y => 16,
            Component::Cb | Component::Cr => 8,
        }
    }

    /// The columns and rows of a plane: three macroblocks.
    pub(crate) fn side(self) -> u8
        ensures { (0 < result) × (result ≤ 48) }
    {
        self.block() * 3
    }
}

/// A picture by its samples, row after row.
#[derive(Drop)]
pub(crate) struct Picture<S> {
    pub(crate) number: u32,
    pub(crate) y: Vec<S>,
    pub(crate) cb: Vec<S>,
    pub(crate) cr: Vec<S>,
}

/// The pictures of a list twice: as the calls leave them, and with every mean exact. They stand apart, so that what fills the unrounded
/// ones sees no answer of the calls.
#[derive(Drop)]
pub(crate) struct Pictures {
    pub(crate) rounded: Vec<Picture<u8>>,
    pub(crate) exact: Vec<Picture<u64>>,
}

/// 8 to the power n.
pub(crate) fn unit(n: u32) -> u64
    ensures { 0 < result }
{
    1 << (3 * (n % 20))
}

/// v times 8 to the power n. No sample of pictures 0 to 18 reaches 2 to the power 62.
pub(crate) fn scaled(v: u64, n: u32) -> u64 {
    v.wrapping_mul(unit(n))
}

impl<S> Picture<S> {
    pub(crate) fn plane(&self, component: Component) -> &[S] {
        match component {
            Component::Y => &self.y,
            Component::Cb => &self.cb,
            Component::Cr => &self.cr,
        }
    }

    pub(crate) fn plane_mut(&mut self, component: Component) -> &mut [S] {
        match component {
            Component::Y => &mut self.y,
            Component::Cb => &mut self.cb,
            Component::Cr => &mut self.cr,
        }
    }
}

/// Picture n, and those below it. No list has a step at a picture that there is not.
pub(crate) fn at<S>(
    pictures: &mut [Picture<S>],
    n: usize,
) -> Option<(&[Picture<S>], &mut Picture<S>)> {
    let (below, rest) = pictures.split_at_mut_checked(n)?;
    Some((below, rest.first_mut()?))
}

fn drawn_plane(
    alloc: Global,
    component: Component,
    samples: &mut Draws,
) -> Result<Vec<u8>, AllocError> {
    let side = usize::from(component.side());
    samples.bytes(alloc, side * side)
}

/// All pictures as they are drawn: each component by a generator of its own.
pub(crate) fn drawn(alloc: Global) -> io::Result<Vec<Picture<u8>>> {
    let mut y = Draws::from_seed(1);
    let mut cb = Draws::from_seed(2);
    let mut cr = Draws::from_seed(3);
    let mut pictures = Vec::new(alloc);
    for number in 0..PICTURES {
        pictures.push(Picture {
            number,
            y: drawn_plane(alloc, Component::Y, &mut y)?,
            cb: drawn_plane(alloc, Component::Cb, &mut cb)?,
            cr: drawn_plane(alloc, Component::Cr, &mut cr)?,
        })?;
    }
    Ok(pictures)
}

fn unrounded_plane(alloc: Global, n: u32, bytes: &[u8]) -> Result<Vec<u64>, AllocError> {
    let mut plane = vec![in alloc; 0u64; bytes.len()]?;
    for (sample, byte) in plane.iter_mut().zip(bytes) {
        *sample = scaled(u64::from(*byte), n);
    }
    Ok(plane)
}

impl Pictures {
    /// Both start as the same pictures.
    pub(crate) fn new(alloc: Global, rounded: Vec<Picture<u8>>) -> io::Result<Pictures> {
        let mut exact = Vec::new(alloc);
        for picture in rounded.iter() {
            let number = picture.number;
            exact.push(Picture {
                number,
                y: unrounded_plane(alloc, number, &picture.y)?,
                cb: unrounded_plane(alloc, number, &picture.cb)?,
                cr: unrounded_plane(alloc, number, &picture.cr)?,
            })?;
        }
        Ok(Pictures { rounded, exact })
    }
}

/// Gives picture 0 another luminance, by column and row.
pub(crate) fn set_first_luminance<F: Fn(u8, u8) -> u8>(pictures: &mut [Picture<u8>], luminance: F)
    requires { F.IsAlwaysCallable luminance }
{
    let Some(first) = pictures.first_mut() else {
        return;
    };
    let side = Component::Y.side();
    let rows = first.y.chunks_exact_mut(usize::from(side));
    for (y, row) in (0..side).zip(rows) {
        for (x, byte) in (0..side).zip(row.iter_mut()) {
            *byte = luminance(x, y);
        }
    }
}
