//! The planes that cases pass for the references, also where these say that they are absent.
ghost use Rattle.std.specs.Prelude.{◌≡◌, ◌^◌, ◌≤◌, ◌<◌, ◌⊎◌, IfOk, IfErr, OnErr};
ghost use Rattle.lists.specs.declared.unread.Unread.TheVariants.{Malformed};
ghost use Rattle.lists.specs.Places.{MovesTo};
ghost use Rattle.lists.specs.Text.{word_end};
ghost use Rattle.drawn.specs.Draws.{number_after};
ghost use Rattle.drawn.specs.declared.references.Extent.{Extent};
ghost use Rattle.drawn.specs.Fields.{NumberAt, third_end, planes_end, ExtentAt, DrawnFrom, PlanesAt, IsEmpty, AreEmpty};

use crate::draws::Draws;
use forming_predictions::{PlaneSides, ReferencePlane};
use lists::{Cursor, Unread};
use std::alloc::{AllocError, Global};

/// The sides of a plane, and how many samples it has, which need not be as many as the sides say.
#[derive(Clone, Copy, Debug, PartialEq, Eq)]
pub struct Extent {
    pub sides: PlaneSides,
    pub length: usize,
}

/// The sides of a plane and its samples.
#[derive(Drop)]
pub struct Plane {
    pub sides: PlaneSides,
    pub samples: Vec<u8>,
}

#[derive(Drop)]
pub struct Planes {
    pub y: Plane,
    pub cb: Plane,
    pub cr: Plane,
}

#[derive(Drop)]
pub struct References {
    pub forward: Planes,
    pub backward: Planes,
}

impl Extent {
    /// `WIDTH HEIGHT LENGTH`, of at most so many samples.
    pub fn read(case: &mut Cursor<'_>, most: usize) -> Result<Extent, Unread>
        ensures extent { IfOk result (λ extent. ExtentAt case.old.text.now case.old.at extent) }
        ensures few { IfOk result (λ extent. extent.length ≤ most) }
        ensures malformed { IfErr result (λ e. e ≡ Malformed) }
        ensures refused { OnErr result ((extent : Extent) → extent.sides.width < 2 ^ 64 → extent.sides.height < 2 ^ 64 → extent.length ≤ most → ¬ (ExtentAt case.old.text.now case.old.at extent)) }
        ensures moved { IfOk result (λ _. MovesTo case.old case.new (third_end case.old.text.now case.old.at)) }
    {
        let sides = PlaneSides {
            width: case.number()?,
            height: case.number()?,
        };
        let length = case.number::<usize>()?;
        if length > most {
            return Err(Unread::Malformed);
        }
        Ok(Extent { sides, length })
    }
}

impl Plane {
    /// The plane as it is read.
    pub fn lent(&self) -> ReferencePlane<'_>
        ensures sides { result.sides ≡ self.now.sides }
        ensures samples { result.samples.now ≡ self.now.samples.items }
    {
        ReferencePlane {
            sides: self.sides,
            samples: &self.samples,
        }
    }

    pub fn empty(alloc: Global) -> Plane
        ensures { IsEmpty result }
    {
        Plane {
            sides: PlaneSides {
                width: 0,
                height: 0,
            },
            samples: Vec::new(alloc),
        }
    }

    fn drawn(alloc: Global, extent: Extent, draws: &mut Draws) -> Result<Plane, AllocError>
        ensures plane { IfOk result (DrawnFrom draws.old.last extent) }
        ensures last { IfOk result (λ _. draws.new.last ≡ number_after draws.old.last extent.length) }
    {
        Ok(Plane {
            sides: extent.sides,
            samples: draws.bytes(alloc, extent.length)?,
        })
    }
}

impl Planes {
    fn empty(alloc: Global) -> Planes
        ensures { AreEmpty result }
    {
        Planes {
            y: Plane::empty(alloc),
            cb: Plane::empty(alloc),
            cr: Plane::empty(alloc),
        }
    }

    /// `WIDTH HEIGHT LENGTH` of each plane, of at most so many samples together, and `SEED`.
    fn read(alloc: Global, case: &mut Cursor<'_>, most: usize) -> Result<Planes, Unread>
        ensures planes { IfOk result (λ planes. PlanesAt case.old.text.now case.old.at most planes) }
        ensures moved { IfOk result (λ _. MovesTo case.old case.new (planes_end case.old.text.now case.old.at)) }
    {
        let y = Extent::read(case, most)?;
        let cb = Extent::read(case, most - y.length)?;
        let cr = Extent::read(case, most - y.length - cb.length)?;
        let mut draws = Draws::from_seed(case.number()?);
        Ok(Planes {
            y: Plane::drawn(alloc, y, &mut draws)?,
            cb: Plane::drawn(alloc, cb, &mut draws)?,
            cr: Plane::drawn(alloc, cr, &mut draws)?,
        })
    }
}

impl References {
    pub fn empty(alloc: Global) -> References
        ensures forward { AreEmpty result.forward }
        ensures backward { AreEmpty result.backward }
    {
        References {
            forward: Planes::empty(alloc),
            backward: Planes::empty(alloc),
        }
    }

    /// Reads `REFERENCE`, 0 for the forward one and 1 for the backward one, and its planes.
    pub fn set(&mut self, alloc: Global, case: &mut Cursor<'_>, most: usize) -> Result<(), Unread>
        ensures reference { IfOk result (λ _. NumberAt case.old.text.now case.old.at 0 ⊎ NumberAt case.old.text.now case.old.at 1) }
        ensures forward { NumberAt case.old.text.now case.old.at 0 → IfOk result (λ _. PlanesAt case.old.text.now (word_end case.old.text.now case.old.at) most self.new.forward × self.new.backward ≡ self.old.backward) }
        ensures backward { NumberAt case.old.text.now case.old.at 1 → IfOk result (λ _. PlanesAt case.old.text.now (word_end case.old.text.now case.old.at) most self.new.backward × self.new.forward ≡ self.old.forward) }
        ensures unchanged { OnErr result (self.new ≡ self.old) }
        ensures moved { IfOk result (λ _. MovesTo case.old case.new (planes_end case.old.text.now (word_end case.old.text.now case.old.at))) }
    {
        match case.integer()? {
            0 => self.forward = Planes::read(alloc, case, most)?,
            1 => self.backward = Planes::read(alloc, case, most)?,
            _ => return Err(Unread::Malformed),
        }
        Ok(())
    }
}
