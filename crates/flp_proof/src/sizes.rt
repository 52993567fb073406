//! The sizes of a proof.

ghost use Rattle.std.specs.Prelude.{◌≡◌, ◌+◌, ◌^◌, ◌≤◌};
ghost use Rattle.flp_proof.specs.Proof.{wire_log, proof_len};

use flp_circuits::Circuit;

/// The exponent of P, the least power of two that is above the number of calls.
pub fn log_above(calls: usize) -> u8
    requires some { 1 ≤ calls }
    requires few { calls ≤ 2047 }
    ensures value { result ≡ wire_log calls }
    ensures few { result ≤ 11 }
    ensures room { calls + 1 ≤ 2 ^ result }
{
    calls.ilog2() as u8 + 1
}

/// How many elements a proof has: a wire seed for each wire, and 2 (P - 1) + 1 coefficients.
pub fn proof_len<C: Circuit>(c: &C) -> usize
    ensures { result ≡ proof_len (C.shape c.now) }
{
    let order: usize = 1 << log_above(c.calls());
    c.arity() + (2 * (order - 1) + 1)
}
