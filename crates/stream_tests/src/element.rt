ghost use Rattle.std.specs.Prelude.{◌<◌};
ghost use Rattle.stream_tests.specs.Modulus.{modulus};

/// A number modulo 786433, which is 3 * 2^18 + 1. Of all numbers of three bytes one in 21 is below it.
#[derive(Clone, Copy, Debug, PartialEq, Eq)]
pub struct SmallField {
    pub(crate) number: u32,
    pub ghost below: { number < modulus },
}
