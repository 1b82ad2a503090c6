//! Decimal numbers.
ghost use Rattle.std.specs.Prelude.{◌≡◌, ◌≢◌, ℕ, pos, ◌^◌, ◌≤◌, ◌<◌, cond, length, Some, None, IfSome, Ok, Err, IfOk, IfErr, OnErr};
ghost use Rattle.std.specs.Int.{from_bool};
ghost use Rattle.std.specs.Result.{MatchResult};
ghost use Rattle.lists.specs.declared.unread.Unread.TheVariants.{Malformed};
ghost use Rattle.lists.specs.Places.{MovesTo};
ghost use Rattle.lists.specs.Text.{word_at, word_end};
ghost use Rattle.lists.specs.Numbers.{digit_of, decimal, is_natural, is_number, number_of, number_at, IsNumberAt, IsKindAt, ZerosAt, words_end, PresentAt, present_end};

use crate::class::Class;
use crate::cursor::Cursor;
use crate::unread::Unread;

impl Cursor<'_> {
    /// Reads a number: an optional minus and 1 to 18 digits.
    pub fn integer(&mut self) -> Result<i64, Unread>
        ensures number { result ≡ number_at self.old.text.now self.old.at }
        ensures moved { MovesTo self.old self.new (word_end self.old.text.now self.old.at) }
    {
        number(self.word()).ok_or(Unread::Malformed)
    }

    /// Reads a number of another type; one that is out of its range is malformed.
    pub fn number<T: TryFrom<i64>>(&mut self) -> Result<T, Unread>
    where
        T::Error: Drop,
        ensures number { MatchResult result (λ x. IsNumberAt self.old.text.now self.old.at × T.try_from_gives (number_of (word_at self.old.text.now self.old.at)) (Ok x)) (λ e. e ≡ Malformed) }
        ensures refused { OnErr result (IsNumberAt self.old.text.now self.old.at → (why : T.Error) × T.try_from_gives (number_of (word_at self.old.text.now self.old.at)) (Err why)) }
        ensures moved { MovesTo self.old self.new (word_end self.old.text.now self.old.at) }
    {
        T::try_from(self.integer()?).map_err(|_| Unread::Malformed)
    }

    /// Reads 0 or 1.
    pub fn flag(&mut self) -> Result<bool, Unread>
        ensures flag { MatchResult result (λ b. number_at self.old.text.now self.old.at ≡ Ok (pos (from_bool b))) (λ e. e ≡ Malformed) }
        ensures refused { OnErr result (number_at self.old.text.now self.old.at ≢ Ok (pos 0) × number_at self.old.text.now self.old.at ≢ Ok (pos 1)) }
        ensures moved { MovesTo self.old self.new (word_end self.old.text.now self.old.at) }
    {
        match self.integer()? {
            0 => Ok(false),
            1 => Ok(true),
            _ => Err(Unread::Malformed),
        }
    }

    /// Reads so many zeros.
    fn zeros(&mut self, count: usize) -> Result<(), Unread>
        ensures zeros { IfOk result (λ _. ZerosAt self.old.text.now self.old.at count) }
        ensures malformed { IfErr result (λ e. e ≡ Malformed) }
        ensures moved { IfOk result (λ _. MovesTo self.old self.new (words_end self.old.text.now self.old.at count)) }
    {
        for _ in 0..count {
            if self.integer()? != 0 {
                return Err(Unread::Malformed);
            }
        }
        Ok(())
    }

    /// Reads whether something of so many fields follows: 1, or 0 and a 0 in place of each. What follows is the caller's to read: taken as a
    /// closure it would be asked for in a `requires`, and each call would be longer than the `if`.
    pub fn present(&mut self, fields: usize) -> Result<bool, Unread>
        ensures present { MatchResult result (PresentAt self.old.text.now self.old.at fields) (λ e. e ≡ Malformed) }
        ensures moved { IfOk result (λ b. MovesTo self.old self.new (present_end self.old.text.now self.old.at fields b)) }
    {
        let present = self.flag()?;
        if !present {
            self.zeros(fields)?;
        }
        Ok(present)
    }

    /// Reads the number of a kind; one that has no meaning is malformed.
    pub fn kind<K: TryFrom<u32>>(&mut self) -> Result<K, Unread>
    where
        K::Error: Drop,
        ensures kind { MatchResult result (λ k. IsKindAt K.try_from_gives self.old.text.now self.old.at (Ok k)) (λ e. e ≡ Malformed) }
        ensures refused { OnErr result ((n : ℕ) → n < 2 ^ 32 → number_at self.old.text.now self.old.at ≡ Ok (pos n) → (why : K.Error) × K.try_from_gives n (Err why)) }
        ensures moved { MovesTo self.old self.new (word_end self.old.text.now self.old.at) }
    {
        K::try_from(self.number()?).map_err(|_| Unread::Malformed)
    }
}

fn digit(b: u8) -> u64
    ensures value { result ≡ digit_of b }
    ensures below { result ≤ 9 }
{
    if Class::Digit.has(b) {
        (b - b'0') as u64
    } else {
        0
    }
}

/// The value of at most 18 digits.
fn digits(w: &[u8]) -> u64
    requires { length w.now ≤ 18 }
    ensures value { result ≡ decimal 0 w.now }
    ensures below { result < 10 ^ 18 }
{
    let mut value = 0;
    for d in w {
        value = value * 10 + digit(*d);
    }
    value
}

fn natural(w: &[u8]) -> Option<u64>
    ensures value { result ≡ cond (is_natural w.now) (Some (decimal 0 w.now)) None }
    ensures below { IfSome result (λ n. n < 10 ^ 18) }
{
    if w.is_empty() || w.len() > 18 || Class::Digit.run(w) < w.len() {
        return None;
    }
    Some(digits(w))
}

fn number(w: &[u8]) -> Option<i64>
    ensures { result ≡ cond (is_number w.now) (Some (number_of w.now)) None }
{
    match w {
        [b'-', digits @ ..] => Some(-(natural(digits)? as i64)),
        _ => Some(natural(w)? as i64),
    }
}
