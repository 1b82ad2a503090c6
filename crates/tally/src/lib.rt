//! Replays a list: judges each case, counts, and reports.
#![tactic(auto)]

ghost use Rattle.std.specs.Prelude.{◌≡◌, ◌<◌, List, Option, Bool, IfOk, IfSome, vec_len};
ghost use Rattle.std.specs.Fn.{CalledAtMut};
ghost use Rattle.tally.specs.Counts.{none, after_comment, after_case, at_end};
ghost use Rattle.tally.specs.Walk.{Verdict, Walks};

mod answers;
mod lent;

pub use answers::{number_and_value, number_of};
pub use lent::Lent;
use lists::{Cursor, Line, Unread};
use std::alloc::AllocError;
use std::io;
use std::io::Read;

/// No byte string of a list is longer, but those of the planes of forming, and no buffer that is lent.
pub const LONGEST: usize = 1024;

/// The lines so far (comments and cases: a list has no empty line), the cases, those that agree, and whether the list is well formed
/// so far. That is no `Result`, since the counts are reported either way.
#[derive(Clone, Copy, Debug, PartialEq, Eq)]
pub struct Tally {
    pub lines: u64,
    pub cases: u64,
    pub agree: u64,
    pub good: bool,
}

impl Tally {
    pub fn new() -> Tally
        ensures { result ≡ none }
    {
        Tally {
            lines: 0,
            cases: 0,
            agree: 0,
            good: true,
        }
    }

    /// Counts a comment.
    pub fn comment(&mut self)
        ensures { self.new ≡ after_comment self.old }
    {
        *self = Tally {
            lines: self.lines.wrapping_add(1),
            ..*self
        };
    }

    /// Counts a case.
    pub fn case(&mut self, agrees: bool)
        ensures { self.new ≡ after_case self.old agrees }
    {
        self.lines = self.lines.wrapping_add(1);
        self.cases = self.cases.wrapping_add(1);
        if agrees {
            self.agree = self.agree.wrapping_add(1);
        }
    }
}

/// The same as `case`. A case that does not agree is named, with its line, if it is among the first eight.
pub fn judge(rt: &impl Print, tally: &mut Tally, agrees: bool) -> io::Result<()>
    ensures { tally.new ≡ after_case tally.old agrees }
{
    let named = !agrees && tally.cases.wrapping_sub(tally.agree) < 8;
    tally.case(agrees);
    if named {
        let case = tally.cases;
        let line = tally.lines;
        println!(rt; "case {case}, line {line}, disagrees")?;
    }
    Ok(())
}

/// Judges a case, which has to end its line.
fn verdict<J: FnMut(&mut Cursor<'_>) -> Result<bool, Unread>>(
    judge: &mut J,
    case: Cursor<'_>,
) -> Result<bool, Unread>
    requires { J.IsAlwaysCallable judge.old }
    ensures callable { J.IsAlwaysCallable judge.new }
    ensures verdict { Verdict (CalledAtMut J.FnMut) judge.old case.entry result judge.new }
{
    let mut case = case;
    let agrees = judge(&mut case)?;
    case.line_ends()?;
    Ok(agrees)
}

/// Goes through a list, up to the first line that is not well formed.
pub fn walk<J: FnMut(&mut Cursor<'_>) -> Result<bool, Unread>>(
    rt: &impl Print,
    list: &[u8],
    mut judge: J,
) -> io::Result<Tally>
    requires { J.IsAlwaysCallable judge }
    ensures { IfOk result (λ t. (lines : List (Option Bool)) × Walks (CalledAtMut J.FnMut) list.now lines judge 0 none t) }
{
    let mut tally = Tally::new();
    let mut lines = Cursor::new(list);
    while let Some(line) = lines.next_line() {
        match line {
            Line::Comment => tally.comment(),
            Line::Case(case) => {
                match verdict(&mut judge, case) {
                    Ok(agrees) => self::judge(rt, &mut tally, agrees)?,
                    Err(Unread::Malformed) => {
                        tally.good = false;
                        break;
                    }
                    Err(Unread::OutOfMemory) => return Err(io::Error::from(AllocError)),
                }
            }
        }
    }
    Ok(tally)
}

fn write_report(rt: &impl Print, tally: &Tally) -> io::Result<()> {
    let cases = tally.cases;
    let agree = tally.agree;
    println!(rt; "{cases} cases, {agree} agree")?;
    if tally.good {
        return Ok(());
    }
    let line = tally.lines.wrapping_add(1);
    println!(rt; "not well formed: line {line}")
}

/// Writes the counts, and the first line that is not well formed, where there is one. Answers whether there was none, and whether the
/// report could be written: the first holds also where the second is an error.
pub fn report(rt: &impl Print, tally: &Tally) -> (bool, io::Result<()>)
    ensures { result.0 ≡ tally.now.good }
{
    (tally.good, write_report(rt, tally))
}

/// A list is shorter than this.
const TOO_LONG: usize = 1048576;

/// The list from standard input. One that is too long is said to be, and not given.
pub fn read<R: Alloc + Input + Print>(rt: &R) -> io::Result<Option<Vec<u8, R::A>>>
    ensures { IfOk result (λ read. IfSome read (λ list. vec_len list < 1048576)) }
{
    let mut list = Vec::new(rt.alloc());
    rt.reader().take(TOO_LONG as u64).read_to_end(&mut list)?;
    if list.len() < TOO_LONG {
        return Ok(Some(list));
    }
    println!(rt; "the list is too long")?;
    Ok(None)
}

/// Replays the list from standard input: `judge` reads a case and says whether it agrees. This promises nothing: its answer is that of
/// the input and the output, of which contracts know nothing, and what it counts is only printed.
pub fn replay<R: Alloc + Input + Print, J: FnMut(&mut Cursor<'_>) -> Result<bool, Unread>>(
    rt: &R,
    judge: J,
) -> io::Result<()>
    requires { J.IsAlwaysCallable judge }
{
    match read(rt)? {
        Some(list) => {
            let tally = walk(rt, list.as_slice(), judge)?;
            let (_, written) = report(rt, &tally);
            written
        }
        None => Ok(()),
    }
}
