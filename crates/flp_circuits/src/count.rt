//! The circuit of counts.

use crate::circuit::{Circuit, EncodeFault};
use crate::entries::{bit_of, only};
use field_laws::Field;
use std::alloc::{AllocError, Global};
use std::marker::PhantomData;

/// The circuit of counts: a measurement is 0 or 1.
#[derive(Drop)]
pub struct Count<F> {
    field: PhantomData<F>,
}

impl<F> Count<F> {
    ghost use Rattle.std.specs.Prelude.{◌≡◌};

    /// The circuit of counts in this field. There is no other.
    pub fn new() -> Self
        ensures { (c : Count F) → c ≡ result }
    {
        Count { field: PhantomData }
    }
}

impl<E: Field> Count<E> {
    ghost use Rattle.std.specs.Prelude.{◌≡◌, ◌↔◌, IfOk, Some, None};
    ghost use Rattle.flp_circuits.specs.Kinds.{count_encoding};
    ghost use Rattle.flp_circuits.specs.declared.circuit.EncodeFault.TheVariants.{BadValue};

    /// The input of 0 or 1.
    fn encode_number(&self, alloc: Global, m: u64) -> Result<Vec<E>, EncodeFault>
        ensures value { IfOk result (λ x. count_encoding E.ring m ≡ Some x.items) }
        ensures bad_value { (result ≡ Err BadValue) ↔ (count_encoding E.ring m ≡ None) }
    {
        if m >= 2 {
            return Err(EncodeFault::BadValue);
        }
        let mut x = Vec::new(alloc);
        x.push(bit_of(m == 1)).map_err(|_| EncodeFault::NoMemory)?;
        Ok(x)
    }
}

impl<E: Field> Circuit for Count<E> {
    ghost use Rattle.flp_circuits.specs.Kinds.{count_shape};
    ghost use Rattle.flp_circuits.specs.CircuitLaws.{count_keeps, count_encodes};

    type F = E;

    ghost shape = { λ _. count_shape E.ring };

    ghost laws = { λ _. count_keeps E.laws };

    ghost codes = { λ _. count_encodes E.laws };

    fn encode_list(&self, alloc: Global, m: &[u64]) -> Result<Vec<E>, EncodeFault> {
        match only(m) {
            Some(number) => self.encode_number(alloc, number),
            None => Err(EncodeFault::BadValue),
        }
    }

    fn truncate(&self, alloc: Global, x: &[E]) -> Result<Vec<E>, AllocError> {
        let mut out = Vec::new(alloc);
        out.push(x[0])?;
        Ok(out)
    }

    fn input_len(&self) -> usize {
        1
    }

    fn out_len(&self) -> usize {
        1
    }

    fn joint_len(&self) -> usize {
        0
    }

    fn calls(&self) -> usize {
        1
    }

    fn arity(&self) -> usize {
        2
    }

    fn input(&self, x: &[E], _call: usize, _wire: usize) -> E {
        x[0]
    }

    fn gadget(&self, wires: &[E]) -> E {
        wires[0].mul(wires[1])
    }

    fn validity(&self, _one: E, x: &[E], _joint: &[E], results: &[E]) -> E {
        results[0].sub(x[0])
    }
}
