//! The record itself: its places, and zeros.
use crate::fields;
use crate::record::Call;
use lists::{Cursor, Unread};
use pmv::kinds::{Component, Direction, VectorIndex};
use pmv::predictors::Pmv;

/// `R S T VALUE`.
#[derive(Clone, Copy)]
pub(crate) struct Setting {
    r: VectorIndex,
    s: Direction,
    t: Component,
    value: i32,
}

impl Call for Setting {
    type Answer = i32;

    fn read(case: &mut Cursor<'_>) -> Result<Self, Unread> {
        Ok(Setting {
            r: case.kind()?,
            s: case.kind()?,
            t: fields::component(case)?,
            value: case.number()?,
        })
    }

    /// `GOT`: what was there.
    fn answer(case: &mut Cursor<'_>) -> Result<i32, Unread> {
        case.number()
    }

    fn by_value(self, pmv: Pmv) -> (i32, Pmv) {
        let got = pmv.predictor(self.r, self.s, self.t);
        (got, pmv.with(self.r, self.s, self.t, self.value))
    }

    fn lent(self, pmv: &mut Pmv) -> i32 {
        let got = pmv.get(self.r, self.s, self.t);
        pmv.set(self.r, self.s, self.t, self.value);
        got
    }
}

/// A reset, of which nothing is asked but the record after it.
#[derive(Clone, Copy)]
pub(crate) struct Clearing;

impl Call for Clearing {
    type Answer = ();

    fn read(_case: &mut Cursor<'_>) -> Result<Self, Unread> {
        Ok(Clearing)
    }

    fn answer(_case: &mut Cursor<'_>) -> Result<(), Unread> {
        Ok(())
    }

    fn by_value(self, pmv: Pmv) -> ((), Pmv) {
        ((), pmv.cleared())
    }

    fn lent(self, pmv: &mut Pmv) {
        pmv.reset();
    }
}

/// `11 Q0..Q7`, from Q0 on.
pub(crate) fn making(case: &mut Cursor<'_>) -> Result<bool, Unread> {
    Ok(fields::predictors(case)? == Pmv::new())
}
