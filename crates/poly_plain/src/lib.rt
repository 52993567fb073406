//! Polynomials over a field, as slices of coefficients with the constant one first, by plain sums: the value at a
//! point, the product, and the one polynomial that has given values at the powers of a root of one. The layers above
//! use [`eval`]; [`interpolate`] is the plain program of the fast transform's inverse, and both meet one clause.
#![tactic(auto)]

mod interpolated;
mod multiplied;
mod value;

pub use interpolated::{interpolate, interpolation_is_unique};
pub use multiplied::mul;
pub use value::eval;
