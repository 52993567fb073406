//! Reading from the front of an input.

ghost use Rattle.std.specs.Prelude.{◌≡◌, ◌≤◌, length, slice_get, option_map};
ghost use Rattle.std.specs.Int.{w16, w32, w64};
ghost use Rattle.dap_bytes.specs.Cursor.{rest_of, next_bytes, next_number, past};

use std::marker::Model;

/// A place in an input, from which its bytes are taken in order. Each part that it gives is a slice of the input, and
/// places only rise. Contracts see it as the input's bytes and the place. None of its calls takes memory.
#[derive(Debug, Drop)]
pub struct Cursor<'a> {
    bytes: &'a [u8],
    place: usize,
}

impl<'a> Model for Cursor<'a> {
    ghost use Rattle.std.specs.Prelude.{◌≤◌, length};
    ghost use Rattle.dap_bytes.specs.Cursor.{Reading};

    ghost Value = { Reading };

    ghost view = { λ c. record { input = c.bytes.now; place = c.place } };

    ghost invariant = { λ c. c.place ≤ length c.bytes.now };
}

impl<'a> Cursor<'a> {
    /// A cursor at the front of the bytes.
    pub fn new(bytes: &'a [u8]) -> Cursor<'a>
        ensures { result ≡ record { input = bytes.now; place = 0 } }
    {
        Cursor { bytes, place: 0 }
    }

    /// The next `n` bytes, as a slice of the input. None exactly where fewer are left; the place then stays.
    pub fn take(&mut self, n: usize) -> Option<&'a [u8]>
        ensures part { option_map (λ part. part.now) result ≡ next_bytes n self.old }
        ensures place { self.new ≡ past n self.old }
    {
        if n > self.bytes.len() - self.place {
            return None;
        }
        let part = &self.bytes[self.place..self.place + n];
        self.place += n;
        Some(part)
    }

    /// The next byte. None exactly where none is left; the place then stays.
    pub fn u8(&mut self) -> Option<u8>
        ensures byte { result ≡ slice_get (rest_of self.old) 0 }
        ensures place { self.new ≡ past 1 self.old }
    {
        let part = self.take(1)?;
        Some(part[0])
    }

    /// The number in the next two bytes, the most significant first. None exactly where fewer are left; the place then
    /// stays.
    pub fn u16(&mut self) -> Option<u16>
        ensures number { result ≡ next_number w16 self.old }
        ensures place { self.new ≡ past 2 self.old }
    {
        let part = self.take(2)?;
        Some(u16::from_be_bytes([part[0], part[1]]))
    }

    /// The number in the next four bytes, by the same rule.
    pub fn u32(&mut self) -> Option<u32>
        ensures number { result ≡ next_number w32 self.old }
        ensures place { self.new ≡ past 4 self.old }
    {
        let part = self.take(4)?;
        Some(u32::from_be_bytes([part[0], part[1], part[2], part[3]]))
    }

    /// The number in the next eight bytes, by the same rule.
    pub fn u64(&mut self) -> Option<u64>
        ensures number { result ≡ next_number w64 self.old }
        ensures place { self.new ≡ past 8 self.old }
    {
        let part = self.take(8)?;
        Some(u64::from_be_bytes([
            part[0], part[1], part[2], part[3], part[4], part[5], part[6], part[7],
        ]))
    }

    /// How many bytes are behind the cursor.
    pub fn place(&self) -> usize
        ensures place { result ≡ self.now.place }
        ensures within { self.now.place ≤ length self.now.input }
    {
        self.place
    }

    /// The bytes from the place on, as a slice of the input.
    pub fn rest(&self) -> &'a [u8]
        ensures { result.now ≡ rest_of self.now }
    {
        &self.bytes[self.place..]
    }
}
