//! The measurement function of a kind.

use circuit_vector::VectorCircuit;
use field64::Field64;
use field128::Field128;
use flp_circuits::{Count, Histogram, Sum};

/// Prio3 of a kind, with two shares. Counts have the small field, all other kinds the large one.
#[derive(Drop)]
pub enum Prio3 {
    /// How many measurements are 1.
    Count(Count<Field64>),
    /// The sum of numbers of 1 to 64 bits.
    Sum(Sum<Field128>),
    /// How many numbers fall into each bucket.
    Histogram(Histogram<Field128>),
    /// The sums of lists of numbers, place by place.
    Vector(VectorCircuit),
}
