//! What is lent to a call, and what the call leaves there.
ghost use Rattle.std.specs.Prelude.{◌≡◌, true, Decides, ℕ, IfOk, IfErr};
ghost use Rattle.std.specs.Borrow.{sem};
ghost use Rattle.lists.specs.declared.unread.Unread.TheVariants.{OutOfMemory};
ghost use Rattle.lists.specs.Places.{MovesTo};
ghost use Rattle.lists.specs.Text.{word_at, word_end};
ghost use Rattle.lists.specs.ByteStrings.{is_bytes};
ghost use Rattle.tally.specs.Lent.{lent_of, behind_of, LendsFront, IsNew, FillAt, FilledAt, HoldingAt, Holds, IsAsListed};

use crate::LONGEST;
use lists::{Cursor, Unread};
use std::alloc::Global;

/// How many bytes behind those that are lent are compared.
const BEHIND: usize = 16;

/// A buffer of which a call is lent all but the last bytes, and what it held before the call.
#[derive(Drop)]
pub struct Lent {
    room: Vec<u8>,
    kept: Vec<u8>,
}

/// The bytes that are lent, and those behind them.
fn split(room: &[u8]) -> (&[u8], &[u8])
    ensures lent { result.0.now ≡ lent_of room.now }
    ensures behind { result.1.now ≡ behind_of room.now }
{
    room.split_at(room.len().saturating_sub(BEHIND))
}

impl Lent {
    fn new(room: Vec<u8>) -> Result<Lent, Unread>
        ensures new { IfOk result (IsNew room.items) }
        ensures memory { IfErr result (λ e. e ≡ OutOfMemory) }
    {
        let kept = room.clone()?;
        Ok(Lent { room, kept })
    }

    /// `FILL LENGTH`.
    pub fn filled(alloc: Global, case: &mut Cursor<'_>) -> Result<Lent, Unread>
        ensures filled { IfOk result (FilledAt case.old.text.now case.old.at) }
        ensures refused { IfErr result (λ e. (first count : ℕ) → FillAt case.old.text.now case.old.at first count → e ≡ OutOfMemory) }
        ensures moved { IfOk result (λ _. MovesTo case.old case.new (word_end case.old.text.now (word_end case.old.text.now case.old.at))) }
    {
        let first = case.number::<u8>()?;
        let length = case.number::<usize>()?;
        if length > LONGEST {
            return Err(Unread::Malformed);
        }
        let room = lists::ramp(alloc, first, length + BEHIND)?;
        Lent::new(room)
    }

    /// `BEFORE`.
    pub fn holding(alloc: Global, case: &mut Cursor<'_>) -> Result<Lent, Unread>
        ensures holding { IfOk result (HoldingAt case.old.text.now case.old.at) }
        ensures refused { IfErr result (λ e. is_bytes (word_at case.old.text.now case.old.at) 1024 ≡ true → e ≡ OutOfMemory) }
        ensures moved { IfOk result (λ _. MovesTo case.old case.new (word_end case.old.text.now case.old.at)) }
    {
        let behind = lists::ramp(alloc, 77, BEHIND)?;
        let mut room = case.bytes(alloc, LONGEST)?;
        room.extend_from_slice(&behind)?;
        Lent::new(room)
    }

    /// The bytes that are lent.
    pub fn lent(&mut self) -> &mut [u8]
        ensures* writes_back { sem 𝓛 (LendsFront self.entry result) }
        ensures value { result.now ≡ lent_of self.old.room.items }
    {
        let length = self.room.len().saturating_sub(BEHIND);
        self.room.slice_mut(..length)
    }

    /// Whether the bytes that were lent are these, and those behind them as they were.
    pub fn holds(&self, after: &[u8]) -> bool
        ensures { Decides result (Holds self.now after.now) }
    {
        let (lent, behind) = split(&self.room);
        let (_, kept) = split(&self.kept);
        lent == after && behind == kept
    }

    /// The same, where the empty string stands for what the bytes were.
    pub fn is_as_listed(&self, after: &[u8]) -> bool
        ensures { Decides result (IsAsListed self.now after.now) }
    {
        let (before, _) = split(&self.kept);
        self.holds(if after.is_empty() { before } else { after })
    }
}
