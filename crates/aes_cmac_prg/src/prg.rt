//! The stream of a seed and an info text, and what is taken from it.

use crate::fault::DrawFault;
use crate::tag::cmac;
use aes_block::Key;
use field_laws::Field;
use std::alloc::Global;
use std::marker::Model;

const BLOCK_LEN: u128 = 16;

const MOST_SKIPPED: usize = 128;

/// The stream of a seed and an info text: the encryptions of the 16-byte numbers 0, 1, 2 and so on
/// under the key CMAC(seed, info).
#[derive(Drop)]
pub struct Prg {
    key: Key,
    // The running block: that of the place, where the place is inside one.
    block: [u8; 16],
    place: u128,
}

impl Model for Prg {
    ghost use Rattle.std.specs.Prelude.{◌≡◌, ◌≢◌, ◌/◌, ◌%◌};
    ghost use Rattle.aes_cmac_prg.specs.Stream.{Reading, stream_block};

    // The key of the stream, and how many bytes were taken.
    ghost Value = { Reading };

    ghost view = { λ p. record { key = p.key; place = p.place } };

    ghost invariant = { λ p. p.place % 16 ≢ 0 → p.block ≡ stream_block p.key (p.place / 16) };
}

impl Prg {
    ghost use Rattle.std.specs.Prelude.{◌≡◌, ◌+◌, ◌*◌, ◌^◌, ◌<◌, ◌≤◌, length};
    ghost use Rattle.field_laws.specs.Bytes.{from_low};
    ghost use Rattle.aes_cmac_prg.specs.Cmac.{cmac};
    ghost use Rattle.aes_cmac_prg.specs.Stream.{advanced, byte_at, bytes_at};
    ghost use Rattle.aes_cmac_prg.specs.Drawn.{bytes_drawn, drawn_at, element_of};
    ghost use Rattle.aes_cmac_prg.specs.Fault.{Draws, Leaves};

    /// The stream of a seed and an info text, at its beginning. It takes no memory.
    pub fn new(seed: &[u8; 16], info: &[u8]) -> Prg
        ensures { result ≡ record { key = cmac seed.now info.now; place = 0 } }
    {
        Prg {
            key: Key::new(cmac(&Key::new(*seed), info)),
            block: [0; 16],
            place: 0,
        }
    }

    #[inline(always)]
    fn next_byte(&mut self) -> u8
        requires { self.old.place < 2 ^ 66 }
        ensures byte { result ≡ byte_at self.old.key self.old.place }
        ensures place { self.new ≡ advanced self.old 1 }
    {
        let used = (self.place % BLOCK_LEN) as usize;
        if used == 0 {
            let block = self.key.encrypt((self.place / BLOCK_LEN).to_be_bytes());
            self.block = block;
        }
        self.place += 1;
        self.block[used]
    }

    fn fill(&mut self, buf: &mut [u8])
        requires { self.old.place < 2 ^ 65 }
        ensures bytes { buf.new ≡ bytes_at self.old.key self.old.place (length buf.old) }
        ensures place { self.new ≡ advanced self.old (length buf.old) }
    {
        for i in 0..buf.len() {
            buf[i] = self.next_byte();
        }
    }

    /// Fills `buf` with the next bytes of the stream, of which fewer than 2^64 were taken before.
    /// It takes no memory.
    pub fn next_bytes(&mut self, buf: &mut [u8])
        requires { self.old.place < 2 ^ 64 }
        ensures bytes { buf.new ≡ bytes_at self.old.key self.old.place (length buf.old) }
        ensures place { self.new ≡ advanced self.old (length buf.old) }
    {
        self.fill(buf);
    }

    // The next number of the stream as an element, if it is below the modulus.
    fn next_element<F: Field>(&mut self) -> Option<F>
        requires { self.old.place < 2 ^ 65 }
        ensures element { result ≡ element_of F.residue F.MODULUS
            (from_low (bytes_at self.old.key self.old.place F.WIDTH)) }
        ensures place { self.new ≡ advanced self.old F.WIDTH }
    {
        let mut spelled = [0; 16];
        self.fill(&mut spelled[..F::WIDTH]);
        F::decode(&spelled[..F::WIDTH])
    }

    /// Draws `n` elements, at most 8,192: numbers of the stream, each of as many bytes as the field spells an
    /// element in, are read low byte first, and those below the modulus are the elements.
    ///
    /// It answers `Spent` exactly where more than 128 numbers are skipped; what was read then stays
    /// taken. Without memory for the elements nothing is taken.
    pub fn draw<F: Field>(&mut self, alloc: Global, n: usize) -> Result<Vec<F>, DrawFault>
        requires few { n ≤ 8192 }
        requires place { self.old.place < 2 ^ 64 }
        ensures drawn { Draws result
            (drawn_at F.residue F.MODULUS F.WIDTH self.old.key self.old.place n) }
        ensures place { Leaves result self.old
            (bytes_drawn F.MODULUS F.WIDTH self.old.key self.old.place n) self.new }
        ensures reach { self.new.place ≤ self.old.place + (n + 128) * F.WIDTH }
    {
        let Ok(mut elements) = Vec::with_capacity(alloc, n) else {
            return Err(DrawFault::NoMemory);
        };
        let mut skipped = 0;
        'drawing: while elements.len() < n {
            match self.next_element() {
                Some(element) => elements.push_reserved(element),
                None if skipped == MOST_SKIPPED => return Err(DrawFault::Spent),
                None => skipped += 1,
            }
        }
        Ok(elements)
    }
}
