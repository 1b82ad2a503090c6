//! ISO/IEC 13818-2, Table 7-7 and 7.6.3.4: the predictors PMV\[r\]\[s\]\[t\].
ghost use Rattle.std.specs.Prelude.{◌≡◌, cond, ◌<◌, eqb};
ghost use Rattle.pmv.specs.Predictors.{pmv_index, predictor, stored, pair_of, pair_stored, zeroed};

use crate::kinds::{Component, Direction, VectorIndex};

/// The eight predictors in half samples: PMV\[r\]\[s\]\[t\] is at 4r + 2s + t. A list of eight, in fixed memory; no length stands beside it.
#[derive(Clone, Copy, Debug, PartialEq, Eq)]
pub struct Pmv {
    pub values: [i32; 8],
}

/// PMV\[r\]\[s\]\[1:0\]: the two predictors of one vector.
#[derive(Clone, Copy, Debug, PartialEq, Eq)]
pub struct PredictorPair {
    pub horizontal: i32,
    pub vertical: i32,
}

/// Where PMV\[r\]\[s\]\[t\] is among the eight.
pub fn place_of(r: VectorIndex, s: Direction, t: Component) -> usize
    ensures { (result ≡ pmv_index r s t) × (result < 8) }
{
    r as usize * 4 + s as usize * 2 + t as usize
}

/// `first` where the test holds, and else `second`: both are made before, so that no jump depends on the test.
pub(crate) fn chosen<T: Copy>(test: bool, first: T, second: T) -> T
    ensures { result ≡ cond test first second }
{
    if test { first } else { second }
}

impl Pmv {
    /// Eight zeros, as at the start of a slice.
    pub fn new() -> Self
        ensures { result ≡ zeroed }
    {
        Pmv { values: [0; 8] }
    }

    /// The predictors after a reset: eight zeros.
    pub fn cleared(self) -> Self
        ensures { result ≡ zeroed }
    {
        Pmv::new()
    }

    /// PMV\[r\]\[s\]\[t\].
    pub fn predictor(self, r: VectorIndex, s: Direction, t: Component) -> i32
        ensures { result ≡ predictor self r s t }
    {
        let k = place_of(r, s, t);
        self.values[k]
    }

    /// The predictors with `value` at PMV\[r\]\[s\]\[t\]. All eight are chosen one by one, and none is stored at a place that has to be computed:
    /// a record that was stored to in one place is slow to copy as a whole.
    pub fn with(self, r: VectorIndex, s: Direction, t: Component, value: i32) -> Self
        ensures { result ≡ stored self r s t value }
    {
        let k = place_of(r, s, t);
        let v = self.values;
        Pmv {
            values: [
                chosen(k == 0, value, v[0]),
                chosen(k == 1, value, v[1]),
                chosen(k == 2, value, v[2]),
                chosen(k == 3, value, v[3]),
                chosen(k == 4, value, v[4]),
                chosen(k == 5, value, v[5]),
                chosen(k == 6, value, v[6]),
                chosen(k == 7, value, v[7]),
            ],
        }
    }

    /// PMV\[r\]\[s\]\[1:0\].
    pub fn pair(self, r: VectorIndex, s: Direction) -> PredictorPair
        ensures { result ≡ pair_of self r s }
    {
        PredictorPair {
            horizontal: self.predictor(r, s, Component::Horizontal),
            vertical: self.predictor(r, s, Component::Vertical),
        }
    }

    /// The predictors with `pair` at PMV\[r\]\[s\]\[1:0\].
    pub fn with_pair(self, r: VectorIndex, s: Direction, pair: PredictorPair) -> Self
        ensures { result ≡ pair_stored self r s pair }
    {
        let p = self.with(r, s, Component::Horizontal, pair.horizontal);
        p.with(r, s, Component::Vertical, pair.vertical)
    }
}
