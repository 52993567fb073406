ghost use Rattle.std.specs.Prelude.{◌≡◌, ◌≤◌};

use field_laws::Field;
use flp_circuits::{Circuit, EncodeFault};
use std::alloc::{AllocError, Global};
use std::marker::PhantomData;

/// A circuit of 1 to 2,047 calls that tests a bit in each; the first one's result decides.
#[derive(Drop)]
pub struct Wide<F> {
    calls: usize,
    field: PhantomData<F>,
    ghost some_calls: { 1 ≤ calls },
    ghost few_calls: { calls ≤ 2047 },
}

impl<F> Wide<F> {
    /// The circuit of so many calls.
    pub fn new(calls: usize) -> Self
        requires some_calls { 1 ≤ calls }
        requires few_calls { calls ≤ 2047 }
        ensures { result.calls ≡ calls }
    {
        Wide {
            calls,
            field: PhantomData,
        }
    }
}

impl<E: Field> Circuit for Wide<E> {
    ghost use Rattle.flp_tests.specs.Wide.{wide_shape};
    ghost use Rattle.flp_tests.specs.WideLaws.{wide_keeps, wide_encodes};

    type F = E;

    ghost shape = { λ c. wide_shape E.ring c.calls };

    ghost laws = { λ c. wide_keeps E.laws c.calls c.some_calls c.few_calls };

    ghost codes = { λ c. wide_encodes E.laws c.calls };

    fn encode_list(&self, _alloc: Global, _m: &[u64]) -> Result<Vec<E>, EncodeFault> {
        Err(EncodeFault::BadValue)
    }

    fn truncate(&self, alloc: Global, x: &[E]) -> Result<Vec<E>, AllocError> {
        let mut out = Vec::new(alloc);
        out.push(x[0])?;
        Ok(out)
    }

    fn input_len(&self) -> usize {
        self.calls
    }

    fn out_len(&self) -> usize {
        1
    }

    fn joint_len(&self) -> usize {
        0
    }

    fn calls(&self) -> usize {
        self.calls
    }

    fn arity(&self) -> usize {
        1
    }

    fn input(&self, x: &[E], call: usize, _wire: usize) -> E {
        x[call - 1]
    }

    fn gadget(&self, wires: &[E]) -> E {
        let a = wires[0];
        a.mul(a).sub(a)
    }

    fn validity(&self, _one: E, _x: &[E], _joint: &[E], results: &[E]) -> E {
        results[0]
    }
}
