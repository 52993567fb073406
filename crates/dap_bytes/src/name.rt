//! Names of tasks.

ghost use Rattle.std.specs.Prelude.{◌≡◌, ◌≤◌, ◌++◌, ◌-◌, length, replicate, Some, refl};
ghost use Rattle.std.specs.List.{list_all};
ghost use Rattle.std.specs.Str.{bytes_eq};
ghost use Rattle.std.specs.Cmp.{partial_equiv_from_equiv};
ghost use Rattle.std.specs.Cmp.Lexicographic.{nat_list_eq_equiv, nat_list_cmp_total, slice_cmp, texts_po, texts_ties};
ghost use Rattle.std.specs.Ordering.{nat_cmp};
ghost use Rattle.dap_bytes.specs.Name.{is_name_char};

use std::cmp::Ordering;
use std::marker::Model;

/// The name of a task: 1 to 32 characters out of `a` to `z`, `0` to `9`, `_` and `-`.
/// Contracts see it as the list of its bytes. Names are in the order of their bytes, a beginning before the longer name.
#[derive(Clone, Copy, Debug)]
pub struct Name {
    cells: [u8; Name::MAX_LEN],
    len: usize,
}

impl Model for Name {
    ghost use Rattle.std.specs.Prelude.{List, ℕ, length, take, ◌++◌, ◌-◌, replicate};
    ghost use Rattle.dap_bytes.specs.Name.{IsFilled};
    ghost use Rattle.dap_bytes.specs.NameLaws.{cells_again, used_again};

    ghost Value = { List ℕ };

    ghost view = { λ a. take a.len a.cells };

    ghost invariant = { λ a. IsFilled a.cells a.len };

    ghost inverse = { λ text. record { cells = text ++ replicate (32 - length text) 0; len = length text } };

    ghost inverse_ok = { λ a h i. record { cells = cells_again h i; len = used_again h i } };
}

impl Name {
    ghost use Rattle.dap_bytes.specs.Name.{name_of, IsName};

    /// How many characters a name has at most.
    pub const MAX_LEN: usize = 32;

    /// The name with these bytes. None where they are no name.
    pub fn new(bytes: &[u8]) -> Option<Name>
        ensures { result ≡ name_of bytes.now }
    {
        if bytes.is_empty() || bytes.len() > Name::MAX_LEN || !are_name_chars(bytes) {
            return None;
        }
        Some(Name {
            cells: padded(bytes),
            len: bytes.len(),
        })
    }

    /// The name's bytes.
    pub fn as_bytes(&self) -> &[u8]
        ensures bytes { result.now ≡ self.now }
        ensures name { IsName self.now }
    {
        &self.cells[..self.len]
    }
}

impl PartialEq for Name {
    ghost eq = { bytes_eq };

    ghost laws = { partial_equiv_from_equiv nat_list_eq_equiv };

    fn eq(&self, other: &Name) -> bool {
        self.as_bytes() == other.as_bytes()
    }
}

impl Eq for Name {
    ghost laws = { nat_list_eq_equiv };
}

impl PartialOrd for Name {
    ghost partial_cmp = { λ a b. Some (slice_cmp nat_cmp a b) };

    ghost laws = { texts_po };

    fn partial_cmp(&self, other: &Name) -> Option<Ordering> {
        Some(self.cmp(other))
    }
}

impl Ord for Name {
    ghost cmp = { slice_cmp nat_cmp };

    ghost total = { nat_list_cmp_total };

    ghost matches_partial_cmp = { λ a b. refl };

    ghost matches_eq = { texts_ties };

    fn cmp(&self, other: &Name) -> Ordering {
        self.as_bytes().cmp(other.as_bytes())
    }
}

fn are_name_chars(bytes: &[u8]) -> bool
    ensures { result ≡ list_all is_name_char bytes.now }
{
    bytes.iter().all(|byte| matches!(*byte, b'a'..=b'z' | b'0'..=b'9' | b'_' | b'-'))
}

/// The bytes, followed by zeros.
fn padded(bytes: &[u8]) -> [u8; Name::MAX_LEN]
    requires { length bytes.now ≤ 32 }
    ensures { result ≡ bytes.now ++ replicate (32 - length bytes.now) 0 }
{
    let mut cells = [0; Name::MAX_LEN];
    cells[..bytes.len()].copy_from_slice(bytes);
    cells
}

#[cfg(test)]
mod tests {
    use super::Name;
    use std::cmp::Ordering;

    #[test]
    fn names_have_1_to_32_of_the_characters(rt: HostRuntime) {
        let longest = [b'a'; 32];
        for text in [b"v".as_slice(), b"a-z_09", longest.as_slice()] {
            let name = Name::new(text).expect(&rt, "a name");
            assert_eq!(rt; name.as_bytes(), text);
            assert!(rt; Name::new(text) == Some(name));
        }
        let too_long = [b'a'; 33];
        for text in [b"".as_slice(), b"V", b"a b", too_long.as_slice()] {
            assert!(rt; Name::new(text).is_none());
        }
    }

    #[test]
    fn names_have_no_character_beside_the_ranges(rt: HostRuntime) {
        for byte in *b"az09_-" {
            assert!(rt; Name::new(&[byte]).is_some());
        }
        for byte in *b"`{/:^,.@AZ~ \n\0\x7f\x80\xff" {
            assert!(rt; Name::new(&[byte]).is_none() && Name::new(&[b'a', byte]).is_none());
        }
    }

    #[test]
    fn names_are_in_the_order_of_their_bytes(rt: HostRuntime) {
        let ascending = [b"-".as_slice(), b"9", b"_", b"a", b"a-", b"aa", b"b"];
        for pair in ascending.windows(2) {
            let lower = Name::new(pair[0]).expect(&rt, "a name");
            let higher = Name::new(pair[1]).expect(&rt, "a name");
            assert!(rt; lower < higher && higher > lower);
            assert_eq!(rt; lower.cmp(&lower), Ordering::Equal);
        }
    }
}
