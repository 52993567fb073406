//! What a task measures.
ghost use Rattle.std.specs.Prelude.{◌≡◌, IsTrue, ◌↔◌};
ghost use Rattle.vdaf_api.specs.Kind.{are_sizes, ascends, is_kind, IsKind};

use crate::bounds::Bounds;

/// The most bits of the numbers that are summed.
pub const MOST_BITS: u8 = 64;

/// The most bounds of a histogram.
pub const MOST_BOUNDS: usize = 1023;

/// The most numbers of a vector.
pub const MOST_NUMBERS: u16 = 1024;

/// The most bits of one of its numbers.
pub const MOST_NUMBER_BITS: u8 = 32;

/// The most bits of all its numbers together.
pub const MOST_INPUT: u16 = 2047;

/// What a task measures: how many measurements of 0 and 1 are 1; the sum of numbers of `bits` bits, 1 to [`MOST_BITS`];
/// how many numbers fall into each bucket, a number into the first whose bound it is not above, or into the last, which
/// has none; or the sums of lists of `len` numbers of `bits` bits, place by place. There are 1 to [`MOST_BOUNDS`]
/// bounds, and they ascend strictly; a list has 1 to [`MOST_NUMBERS`] numbers of 1 to [`MOST_NUMBER_BITS`] bits, with at
/// most [`MOST_INPUT`] bits together.
#[derive(Clone, Debug, PartialEq, Eq, Drop)]
pub enum Kind {
    /// Measurements of 0 and 1.
    Count,
    /// Numbers of so many bits.
    Sum { bits: u8 },
    /// Numbers by the buckets that these bounds make.
    Histogram { bounds: Bounds },
    /// Lists of so many numbers of so many bits each.
    Vector { len: u16, bits: u8 },
}

impl Kind {
    /// Whether the kind is within its ranges.
    pub fn is_valid(&self) -> bool
        ensures value { result ≡ is_kind self.now }
        ensures kind { IsTrue result ↔ IsKind self.now }
    {
        match self {
            Kind::Count => true,
            Kind::Sum { bits } => (1..=MOST_BITS).contains(bits),
            Kind::Histogram { bounds } => {
                (1..=MOST_BOUNDS).contains(&bounds.len()) && ascend(bounds.as_slice())
            }
            Kind::Vector { len, bits } => are_sizes(*len, *bits),
        }
    }
}

/// Whether a vector may have so many numbers of so many bits.
fn are_sizes(len: u16, bits: u8) -> bool
    ensures { result ≡ are_sizes len bits }
{
    (1..=MOST_NUMBERS).contains(&len)
        && (1..=MOST_NUMBER_BITS).contains(&bits)
        && usize::from(len) * usize::from(bits) <= usize::from(MOST_INPUT)
}

fn ascend(bounds: &[u64]) -> bool
    ensures { result ≡ ascends bounds.now }
{
    bounds.is_sorted_by(|a, b| a < b)
}
