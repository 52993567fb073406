//! Checksums of identifiers.

ghost use Rattle.std.specs.Prelude.{◌≡◌, List, ℕ, [], ◌∷◌, ◌++◌};
ghost use Rattle.sha2.specs.Sha256.{sha256};
ghost use Rattle.dap_batch.specs.Checksum.{checksum_of, no_checksum, xor_bytes};

use dap_bytes::Id;
use sha2::{Digest, Sha256};
use std::marker::Model;

/// The exclusive or of the SHA-256 digests (FIPS 180-4) of identifiers. Contracts see it as its 32 bytes.
#[derive(Clone, Copy, Debug, PartialEq, Eq)]
pub struct Checksum {
    bytes: [u8; Checksum::LEN],
}

impl Model for Checksum {
    ghost use Rattle.std.specs.Prelude.{List, ℕ};

    ghost Value = { List ℕ };

    ghost view = { λ c. c.bytes };

    ghost inverse = { λ bytes. record { bytes = bytes } };
}

impl Checksum {
    /// How many bytes a checksum has.
    pub const LEN: usize = 32;

    /// The checksum of no identifiers: zeros. It takes no memory.
    pub fn new() -> Self
        ensures { result ≡ no_checksum }
    {
        Checksum {
            bytes: [0; Checksum::LEN],
        }
    }

    /// Adds an identifier, or takes it out again if it was added before. It takes no memory.
    pub fn add(&mut self, id: &Id)
        ensures bytes { self.new ≡ xor_bytes self.old (sha256 id.now) }
        ensures identifiers { (ids : List (List ℕ)) → self.old ≡ checksum_of ids
            → self.new ≡ checksum_of (ids ++ id.now ∷ []) }
    {
        self.bytes = xor(&self.bytes, &Sha256::digest(id.as_slice()));
    }

    /// Adds all that another checksum has. It takes no memory.
    pub fn join(&mut self, other: &Checksum)
        ensures bytes { self.new ≡ xor_bytes self.old other.now }
        ensures identifiers { (ids more : List (List ℕ)) → self.old ≡ checksum_of ids → other.now ≡ checksum_of more
            → self.new ≡ checksum_of (ids ++ more) }
    {
        self.bytes = xor(&self.bytes, &other.bytes);
    }

    /// The checksum's bytes. It takes no memory.
    pub fn bytes(&self) -> [u8; Checksum::LEN]
        ensures { result ≡ self.now }
    {
        self.bytes
    }
}

/// The checksum with these bytes. It takes no memory.
impl From<[u8; Checksum::LEN]> for Checksum {
    ghost from_gives = { λ bytes checksum. checksum ≡ bytes };

    fn from(bytes: [u8; Checksum::LEN]) -> Checksum {
        Checksum { bytes }
    }
}

/// The bits in which two checksums differ.
fn xor(left: &[u8; Checksum::LEN], right: &[u8; Checksum::LEN]) -> [u8; Checksum::LEN]
    ensures { result ≡ xor_bytes left.now right.now }
{
    let mut differences = *left;
    for i in 0..Checksum::LEN {
        differences[i] = left[i] ^ right[i];
    }
    differences
}
