//! The circuit of histograms.

ghost use Rattle.std.specs.Prelude.{◌≡◌, ◌≤◌, length, nat_le, position};
ghost use Rattle.std.specs.List.Sorted.{IsStrictlyIncreasing};
ghost use Rattle.flp_circuits.specs.declared.histogram.TheConstants.{MOST_BOUNDS};

use crate::circuit::{Circuit, EncodeFault};
use crate::entries::{bit_test, one_hot_at, only, sum_all, weigh};
use field_laws::Field;
use std::alloc::{AllocError, Global};
use std::marker::PhantomData;

/// The most bounds of a histogram, whose out share then has 1,024 elements.
pub const MOST_BOUNDS: usize = 1023;

/// The circuit of histograms: a measurement is any number, and falls in the bucket of the first bound that it is not
/// above, or in the last bucket where it is above all. The bounds, 1 to [`MOST_BOUNDS`] of them, ascend strictly.
#[derive(Drop)]
pub struct Histogram<F> {
    /// The upper bounds of all buckets but the last, which has none.
    pub bounds: Vec<u64>,
    field: PhantomData<F>,
    pub ghost some_bound: { 1 ≤ length bounds.items },
    pub ghost few_bounds: { length bounds.items ≤ MOST_BOUNDS },
    pub ghost ascending: { IsStrictlyIncreasing bounds.items },
}

/// The place of the first bound that `m` is not above.
fn first_reaching(bounds: &[u64], m: u64) -> Option<usize>
    ensures { result ≡ position (λ bound. nat_le m bound) bounds.now }
{
    bounds.iter().position(|bound| m <= *bound)
}

impl<F> Histogram<F> {
    ghost use Rattle.flp_circuits.specs.Kinds.{bucket};

    /// The circuit of histograms between these bounds, which ascend strictly.
    pub fn new(bounds: Vec<u64>) -> Self
        requires some_bound { 1 ≤ length bounds.items }
        requires few_bounds { length bounds.items ≤ MOST_BOUNDS }
        requires ascending { IsStrictlyIncreasing bounds.items }
        ensures { result.bounds.items ≡ bounds.items }
    {
        Histogram {
            bounds,
            field: PhantomData,
        }
    }

    /// The place of the bucket of `m`.
    fn bucket(&self, m: u64) -> usize
        ensures { result ≡ bucket self.now.bounds.items m }
    {
        first_reaching(&self.bounds, m).unwrap_or(self.bounds.len())
    }
}

impl<E: Field> Histogram<E> {
    ghost use Rattle.std.specs.Prelude.{◌↔◌, IfOk, Some, None};
    ghost use Rattle.flp_circuits.specs.Kinds.{histogram_encoding};
    ghost use Rattle.flp_circuits.specs.declared.circuit.EncodeFault.TheVariants.{BadValue};

    /// One in the bucket of a number, and zero in the others.
    fn encode_number(&self, alloc: Global, m: u64) -> Result<Vec<E>, EncodeFault>
        ensures value { IfOk result (λ x. histogram_encoding E.ring self.now.bounds.items m ≡ Some x.items) }
        ensures bad_value { (result ≡ Err BadValue) ↔ (histogram_encoding E.ring self.now.bounds.items m ≡ None) }
    {
        one_hot_at(alloc, self.bounds.len() + 1, self.bucket(m)).map_err(|_| EncodeFault::NoMemory)
    }
}

impl<E: Field> Circuit for Histogram<E> {
    ghost use Rattle.flp_circuits.specs.Kinds.{histogram_shape};
    ghost use Rattle.flp_circuits.specs.CircuitLaws.{histogram_keeps, histogram_encodes};

    type F = E;

    ghost shape = { λ c. histogram_shape E.ring c.bounds.items };

    ghost laws = { λ c. histogram_keeps E.laws c.bounds.items c.few_bounds };

    ghost codes = { λ c. histogram_encodes E.laws c.bounds.items c.few_bounds };

    fn encode_list(&self, alloc: Global, m: &[u64]) -> Result<Vec<E>, EncodeFault> {
        match only(m) {
            Some(number) => self.encode_number(alloc, number),
            None => Err(EncodeFault::BadValue),
        }
    }

    fn truncate(&self, alloc: Global, x: &[E]) -> Result<Vec<E>, AllocError> {
        x.iter().copied().collect(alloc)
    }

    fn input_len(&self) -> usize {
        self.bounds.len() + 1
    }

    fn out_len(&self) -> usize {
        self.bounds.len() + 1
    }

    fn joint_len(&self) -> usize {
        2
    }

    fn calls(&self) -> usize {
        self.bounds.len() + 1
    }

    fn arity(&self) -> usize {
        1
    }

    fn input(&self, x: &[E], call: usize, _wire: usize) -> E {
        x[call - 1]
    }

    fn gadget(&self, wires: &[E]) -> E {
        bit_test(wires[0])
    }

    fn validity(&self, one: E, x: &[E], joint: &[E], results: &[E]) -> E {
        let r = joint[1];
        let test = weigh(joint[0], joint[0], results);
        r.mul(test).add(r.mul(r).mul(sum_all(x).sub(one)))
    }
}
