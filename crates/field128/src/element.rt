//! The elements of the field.

ghost use Rattle.std.specs.Prelude.{◌<◌};
ghost use Rattle.field128.specs.Modulus.{modulus};

/// An element of the field of p = 2^128 - 7 * 2^66 + 1: a number below p, whose sums and products are taken modulo p.
/// Its calls are those of the trait `Field`; no call takes memory but `put`, which spells it in 16 bytes.
#[derive(Clone, Copy, Debug, PartialEq, Eq)]
pub struct Field128 {
    pub(crate) number: u128,
    pub ghost below: { number < modulus },
}
