//! Calls on a record of predictors.
use crate::fields;
use lists::{Cursor, Unread};
use pmv::predictors::Pmv;

/// What a line asks of a record: a call by value, and its twin to which the record is lent.
pub(crate) trait Call: Copy {
    /// What the call answers, beside the record after it.
    type Answer: Copy + PartialEq;

    /// The fields between P7 and the answer.
    fn read(case: &mut Cursor<'_>) -> Result<Self, Unread>;

    /// The fields between those and Q0.
    fn answer(case: &mut Cursor<'_>) -> Result<Self::Answer, Unread>;

    fn by_value(self, pmv: Pmv) -> (Self::Answer, Pmv);

    fn lent(self, pmv: &mut Pmv) -> Self::Answer;
}

/// A line of a call, from P0 on: the record before it, what is asked, the answer, and the record after it.
#[derive(Clone, Copy)]
struct Case<C, A> {
    before: Pmv,
    call: C,
    answer: A,
    after: Pmv,
}

fn read<C: Call>(case: &mut Cursor<'_>) -> Result<Case<C, C::Answer>, Unread> {
    Ok(Case {
        before: fields::predictors(case)?,
        call: C::read(case)?,
        answer: C::answer(case)?,
        after: fields::predictors(case)?,
    })
}

/// A line that brings its own record, which goes by value.
pub(crate) fn by_value<C: Call>(case: &mut Cursor<'_>) -> Result<bool, Unread> {
    let listed = read::<C>(case)?;
    let (answer, after) = listed.call.by_value(listed.before);
    Ok(answer == listed.answer && after == listed.after)
}

/// A line whose call is lent the record that the lines before it left, and that this one has to find.
pub(crate) fn lent<C: Call>(pmv: &mut Pmv, case: &mut Cursor<'_>) -> Result<bool, Unread> {
    let listed = read::<C>(case)?;
    let before = *pmv;
    let answer = listed.call.lent(pmv);
    Ok(before == listed.before && answer == listed.answer && *pmv == listed.after)
}
