//! The generator.
ghost use Rattle.std.specs.Prelude.{◌≡◌, ◌<◌, length, vec_len, IfOk, OnErr};
ghost use Rattle.drawn.specs.Draws.{next_number, bits_of, byte_of, number_after, number_of_45, drawn};

use std::alloc::{AllocError, Global};

/// A run of the generator, by its last number.
#[derive(Clone, Copy, Debug, PartialEq, Eq)]
pub struct Draws {
    pub last: u64,
}

impl Draws {
    pub fn from_seed(seed: u64) -> Draws
        ensures { result.last ≡ seed }
    {
        Draws { last: seed }
    }

    /// The factor and the summand are those of the C standard's example of rand. The lowest bits of the generator's numbers have short
    /// periods, and are left out: what is given has 15 bits.
    fn bits(&mut self) -> u64
        ensures last { self.new.last ≡ next_number self.old.last }
        ensures bits { result ≡ bits_of (next_number self.old.last) }
        ensures below { result < 32768 }
    {
        self.last = (self.last % 2147483648 * 1103515245 + 12345) % 2147483648;
        self.last / 65536
    }

    fn byte(&mut self) -> u8
        ensures last { self.new.last ≡ next_number self.old.last }
        ensures byte { result ≡ byte_of (next_number self.old.last) }
    {
        (self.bits() % 256) as u8
    }

    /// A number of 45 bits, of which three draws give 15 each, the highest first.
    pub fn number(&mut self) -> u64
        ensures number { result ≡ number_of_45 self.old.last }
        ensures last { self.new.last ≡ number_after self.old.last 3 }
    {
        let high = self.bits();
        let middle = self.bits();
        let low = self.bits();
        (high * 32768 + middle) * 32768 + low
    }

    fn fill(&mut self, bytes: &mut [u8])
        ensures bytes { bytes.new ≡ drawn self.old.last (length bytes.old) }
        ensures last { self.new.last ≡ number_after self.old.last (length bytes.old) }
    {
        // A copy, which the compiler keeps in a register: `self` it would store and load for each byte, in 1.8 times the time.
        let mut draws = *self;
        for byte in bytes.iter_mut() {
            *byte = draws.byte();
        }
        *self = draws;
    }

    /// The next bytes.
    pub fn bytes(&mut self, alloc: Global, count: usize) -> Result<Vec<u8>, AllocError>
        ensures bytes { IfOk result (λ bytes. bytes.items ≡ drawn self.old.last count) }
        ensures count { IfOk result (λ bytes. vec_len bytes ≡ count) }
        ensures last { IfOk result (λ _. self.new.last ≡ number_after self.old.last count) }
        ensures unchanged { OnErr result (self.new ≡ self.old) }
    {
        let mut bytes = vec![in alloc; 0u8; count]?;
        self.fill(&mut bytes);
        Ok(bytes)
    }
}
