//! The elements of the field.

ghost use Rattle.std.specs.Prelude.{◌<◌};
ghost use Rattle.field64.specs.Modulus.{modulus};

/// An element of the field of p = 2^64 - 2^32 + 1: a number below p, whose sums and products are taken modulo p. Its
/// calls are those of the trait `Field`; no call takes memory but `put`, which spells it in 8 bytes.
#[derive(Clone, Copy, Debug, PartialEq, Eq)]
pub struct Field64 {
    pub(crate) number: u64,
    pub ghost below: { number < modulus },
}
