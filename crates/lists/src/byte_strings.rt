//! Hexadecimal byte strings.
ghost use Rattle.std.specs.Prelude.{◌≡◌, ◌+◌, ◌*◌, ◌/◌, ◌≤◌, cond, length, Ok, Err, IfOk, vec_len};
ghost use Rattle.std.specs.Result.{MatchResult};
ghost use Rattle.laws.specs.Tabulate.{tabulate};
ghost use Rattle.lists.specs.Places.{MovesTo};
ghost use Rattle.lists.specs.declared.unread.Unread.TheVariants.{Malformed};
ghost use Rattle.lists.specs.Text.{word_at, word_end};
ghost use Rattle.lists.specs.ByteStrings.{hex_of, bytes_of, is_bytes, stored, ramp, BytesAt};

use crate::class::Class;
use crate::cursor::Cursor;
use crate::unread::Unread;
use std::alloc::{AllocError, Allocator};

impl Cursor<'_> {
    /// Reads a byte string into the front of `out`, and gives its length. Where none stands that `out` has room for, `out` stays as it was.
    pub fn bytes_into(&mut self, out: &mut [u8]) -> Result<usize, Unread>
        ensures count { let word = word_at self.old.text.now self.old.at in
            result ≡ cond (is_bytes word (length out.old)) (Ok (length word / 2)) (Err Malformed) }
        ensures within { IfOk result (λ n. n ≤ length out.old) }
        ensures buffer { out.new ≡ stored (word_at self.old.text.now self.old.at) out.old }
        ensures moved { MovesTo self.old self.new (word_end self.old.text.now self.old.at) }
    {
        let word = self.word();
        if !is_bytes(word, out.len()) {
            return Err(Unread::Malformed);
        }
        let n = word.len() / 2;
        store(word, &mut out[..n]);
        Ok(n)
    }

    /// Reads a byte string of at most so many bytes, into memory of its own. Where there is none left it is not read: `bytes_into` asks for none.
    pub fn bytes<A: Allocator>(&mut self, alloc: A, most: usize) -> Result<Vec<u8, A>, Unread>
        ensures bytes { MatchResult result (λ v. BytesAt self.old.text.now self.old.at most (Ok v.items)) (λ e. BytesAt self.old.text.now self.old.at most (Err e)) }
        ensures moved { MovesTo self.old self.new (word_end self.old.text.now self.old.at) }
    {
        let word = self.word();
        if !is_bytes(word, most) {
            return Err(Unread::Malformed);
        }
        let mut bytes = vec![in alloc; 0; word.len() / 2]?;
        store(word, &mut bytes);
        Ok(bytes)
    }
}

fn hex_digit(b: u8) -> u8
    ensures value { result ≡ hex_of b }
    ensures below { result ≤ 15 }
{
    match b {
        b'0'..=b'9' => b - b'0',
        b'a'..=b'f' => b - b'a' + 10,
        _ => 0,
    }
}

fn hex_byte(high: u8, low: u8) -> u8
    ensures { result ≡ hex_of high * 16 + hex_of low }
{
    hex_digit(high) * 16 + hex_digit(low)
}

/// Whether a word is a byte string of at most so many bytes.
fn is_bytes(w: &[u8], most: usize) -> bool
    ensures { result ≡ is_bytes w.now most }
{
    match w {
        [] => false,
        [b] => *b == b'-',
        _ => w.len() % 2 == 0 && w.len() / 2 <= most && Class::Hex.run(w) == w.len(),
    }
}

/// Stores the bytes of a word.
fn store(w: &[u8], out: &mut [u8])
    requires { length out.old ≡ length w.now / 2 }
    ensures { out.new ≡ bytes_of w.now }
{
    for (k, byte) in out.iter_mut().enumerate() {
        *byte = hex_byte(w[2 * k], w[2 * k + 1]);
    }
}

/// Makes the bytes b, b + 1 and so on, modulo 256: what a buffer holds before a call, so that no two neighbours are alike.
pub fn fill(s: &mut [u8], b: u8)
    ensures { s.new ≡ tabulate (length s.old) (ramp b) }
{
    for (i, byte) in s.iter_mut().enumerate() {
        *byte = b.wrapping_add((i % 256) as u8);
    }
}

/// These bytes, so many.
pub fn ramp<A: Allocator>(alloc: A, b: u8, count: usize) -> Result<Vec<u8, A>, AllocError>
    ensures bytes { IfOk result (λ v. v.items ≡ tabulate count (ramp b)) }
    ensures count { IfOk result (λ v. vec_len v ≡ count) }
{
    let mut bytes = vec![in alloc; 0; count]?;
    fill(&mut bytes, b);
    Ok(bytes)
}
