//! The circuit of sums.

ghost use Rattle.std.specs.Prelude.{◌≡◌, ◌≤◌};

use crate::circuit::{Circuit, EncodeFault};
use crate::entries::{binary_digits, bit_test, only, weigh};
use field_laws::Field;
use std::alloc::{AllocError, Global};
use std::marker::PhantomData;

/// The circuit of sums: a measurement is a number of `bits` bits, 1 to 64 of them.
#[derive(Drop)]
pub struct Sum<F> {
    /// How many bits a measurement has.
    pub bits: u8,
    field: PhantomData<F>,
    pub ghost some_bits: { 1 ≤ bits },
    pub ghost few_bits: { bits ≤ 64 },
}

impl<F> Sum<F> {
    /// The circuit of sums of numbers of 1 to 64 bits.
    pub fn new(bits: u8) -> Self
        requires some_bits { 1 ≤ bits }
        requires few_bits { bits ≤ 64 }
        ensures { result.bits ≡ bits }
    {
        Sum {
            bits,
            field: PhantomData,
        }
    }
}

impl<E: Field> Sum<E> {
    ghost use Rattle.std.specs.Prelude.{◌↔◌, IfOk, Some, None};
    ghost use Rattle.flp_circuits.specs.Kinds.{sum_encoding};
    ghost use Rattle.flp_circuits.specs.declared.circuit.EncodeFault.TheVariants.{BadValue};

    /// The bits of a number.
    fn encode_number(&self, alloc: Global, m: u64) -> Result<Vec<E>, EncodeFault>
        ensures value { IfOk result (λ x. sum_encoding E.ring self.now.bits m ≡ Some x.items) }
        ensures bad_value { (result ≡ Err BadValue) ↔ (sum_encoding E.ring self.now.bits m ≡ None) }
    {
        if u128::from(m) >= 1 << self.bits {
            return Err(EncodeFault::BadValue);
        }
        binary_digits(alloc, self.bits, m).map_err(|_| EncodeFault::NoMemory)
    }
}

impl<E: Field> Circuit for Sum<E> {
    ghost use Rattle.flp_circuits.specs.Kinds.{sum_shape};
    ghost use Rattle.flp_circuits.specs.CircuitLaws.{sum_keeps, sum_encodes};
    ghost use Rattle.std.proofs.Common.{le_trans, lit≤};

    type F = E;

    ghost shape = { λ c. sum_shape E.ring c.bits };

    ghost laws = { λ c. sum_keeps E.laws c.bits c.some_bits (le_trans c.few_bits (lit≤ tt)) };

    ghost codes = { λ c. sum_encodes E.laws c.bits };

    fn encode_list(&self, alloc: Global, m: &[u64]) -> Result<Vec<E>, EncodeFault> {
        match only(m) {
            Some(number) => self.encode_number(alloc, number),
            None => Err(EncodeFault::BadValue),
        }
    }

    fn truncate(&self, alloc: Global, x: &[E]) -> Result<Vec<E>, AllocError> {
        let two = E::one().add(E::one());
        let mut out = Vec::new(alloc);
        out.push(weigh(E::one(), two, x))?;
        Ok(out)
    }

    fn input_len(&self) -> usize {
        usize::from(self.bits)
    }

    fn out_len(&self) -> usize {
        1
    }

    fn joint_len(&self) -> usize {
        1
    }

    fn calls(&self) -> usize {
        usize::from(self.bits)
    }

    fn arity(&self) -> usize {
        1
    }

    fn input(&self, x: &[E], call: usize, _wire: usize) -> E {
        x[call - 1]
    }

    fn gadget(&self, wires: &[E]) -> E {
        bit_test(wires[0])
    }

    fn validity(&self, _one: E, _x: &[E], joint: &[E], results: &[E]) -> E {
        weigh(joint[0], joint[0], results)
    }
}
