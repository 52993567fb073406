//! The circuit of vectors.

ghost use Rattle.std.specs.Prelude.{◌≡◌, ◌≤◌, ◌^◌, IfOk, nat_lt};
ghost use Rattle.std.specs.List.{list_all};
ghost use Rattle.field128.specs.Element.{ring_of};
ghost use Rattle.circuit_vector.specs.Vector.{AreSizes, are_numbers, bits_of_list};

use field_laws::Field;
use field128::Field128;
use flp_circuits::{Circuit, EncodeFault, binary_digits, bit_test, weigh};
use std::alloc::{AllocError, Global};

/// The most numbers of a vector.
pub const MOST_NUMBERS: u16 = 1024;

/// The most bits of one of its numbers.
pub const MOST_BITS: u8 = 32;

/// The most bits of all its numbers together.
pub const MOST_INPUT: u16 = 2047;

/// The circuit of vectors, over Field128: a measurement is a list of `len` numbers of `bits` bits, 1 to
/// [`MOST_NUMBERS`] numbers of 1 to [`MOST_BITS`] bits with at most [`MOST_INPUT`] bits together. After the validity
/// circuits of draft-irtf-cfrg-vdaf-03, in the manner of its sum.
#[derive(Drop)]
pub struct VectorCircuit {
    /// How many numbers a measurement has.
    pub len: u16,
    /// How many bits each of them has.
    pub bits: u8,
    pub ghost sizes: { AreSizes len bits },
}

impl VectorCircuit {
    /// The circuit of vectors of `len` numbers of `bits` bits.
    pub fn new(len: u16, bits: u8) -> VectorCircuit
        requires sizes { AreSizes len bits }
        ensures len { result.len ≡ len }
        ensures bits { result.bits ≡ bits }
    {
        VectorCircuit { len, bits }
    }
}

/// What a number of so many bits is below.
fn limit(bits: u8) -> u64
    requires { bits ≤ MOST_BITS }
    ensures { result ≡ 2 ^ bits }
{
    1 << bits
}

/// Whether each of them is below the limit.
fn are_below(limit: u64, m: &[u64]) -> bool
    ensures { result ≡ list_all (λ number. nat_lt number limit) m.now }
{
    m.iter().all(|number| *number < limit)
}

/// Whether they are `len` numbers of `bits` bits.
fn are_numbers(len: u16, bits: u8, m: &[u64]) -> bool
    requires { bits ≤ MOST_BITS }
    ensures { result ≡ are_numbers len bits m.now }
{
    m.len() == usize::from(len) && are_below(limit(bits), m)
}

/// The bits of each number, the lowest first.
fn bits_of_list(alloc: Global, bits: u8, m: &[u64]) -> Result<Vec<Field128>, AllocError>
    ensures { IfOk result (λ x. x.items ≡ bits_of_list ring_of bits m.now) }
{
    let mut x = Vec::new(alloc);
    for number in m {
        x.extend_from_slice(&binary_digits(alloc, bits, *number)?)?;
    }
    Ok(x)
}

impl Circuit for VectorCircuit {
    ghost use Rattle.circuit_vector.specs.Vector.{vector_shape};
    ghost use Rattle.circuit_vector.specs.VectorLaws.{vector_keeps, vector_encodes};
    ghost use Rattle.field128.specs.Laws.{laws};

    type F = Field128;

    ghost shape = { λ c. vector_shape ring_of c.len c.bits };

    ghost laws = { λ c. vector_keeps laws.ring_laws c.len c.bits c.sizes };

    ghost codes = { λ c. vector_encodes laws.ring_laws c.len c.bits c.sizes };

    /// The bits of each number, the lowest first, the numbers in order.
    fn encode_list(&self, alloc: Global, m: &[u64]) -> Result<Vec<Field128>, EncodeFault> {
        if !are_numbers(self.len, self.bits, m) {
            return Err(EncodeFault::BadValue);
        }
        bits_of_list(alloc, self.bits, m).map_err(|_| EncodeFault::NoMemory)
    }

    fn truncate(&self, alloc: Global, x: &[Field128]) -> Result<Vec<Field128>, AllocError> {
        let two = Field128::one().add(Field128::one());
        let mut out = Vec::new(alloc);
        let mut rest = x;
        for _j in 0..self.len {
            let (digits, more) = rest.split_at(usize::from(self.bits));
            out.push(weigh(Field128::one(), two, digits))?;
            rest = more;
        }
        Ok(out)
    }

    fn input_len(&self) -> usize {
        usize::from(self.len) * usize::from(self.bits)
    }

    fn out_len(&self) -> usize {
        usize::from(self.len)
    }

    fn joint_len(&self) -> usize {
        1
    }

    fn calls(&self) -> usize {
        self.input_len()
    }

    fn arity(&self) -> usize {
        1
    }

    fn input(&self, x: &[Field128], call: usize, _wire: usize) -> Field128 {
        x[call - 1]
    }

    fn gadget(&self, wires: &[Field128]) -> Field128 {
        bit_test(wires[0])
    }

    fn validity(
        &self,
        _one: Field128,
        _x: &[Field128],
        joint: &[Field128],
        results: &[Field128],
    ) -> Field128 {
        weigh(joint[0], joint[0], results)
    }
}
