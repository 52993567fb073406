//! The exponents of powers of two.

ghost use Rattle.std.specs.Prelude.{◌≡◌, ◌≤◌, ◌^◌};
ghost use Rattle.field_laws.specs.Interpolation.{HasLog};

/// The exponent of a power of two that is at most 4,096: of the number of values that a polynomial is interpolated at.
pub fn log_of(size: usize) -> u8
    requires { HasLog size 12 }
    ensures few { result ≤ 12 }
    ensures value { size ≡ 2 ^ result }
{
    size.ilog2() as u8
}
