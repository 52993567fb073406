//! The wire polynomials.

ghost use Rattle.std.specs.Prelude.{◌≡◌, ◌+◌, ◌≤◌, ◌<◌, ◌^◌, length, map, IfOk};
ghost use Rattle.std.specs.List.{range_with_len};
ghost use Rattle.poly_ntt.specs.Transform.{values_at_powers};
ghost use Rattle.flp_proof.specs.Proof.{wire_log, wire_value, wire_values, wire, interpolated};

use crate::values::values_at_roots;
use field_laws::Field;
use flp_circuits::Circuit;
use poly_ntt::inverse;
use std::alloc::{AllocError, Global};

/// Value `k` of wire `j`, at power k of the root of order P.
fn wire_value_at<C: Circuit>(c: &C, x: &[C::F], seed: C::F, j: usize, k: usize) -> C::F
    requires input { length x.now ≡ (C.shape c.now).input_len }
    requires wire { j < (C.shape c.now).arity }
    ensures { result ≡ wire_value C.F.ring C.F.half_of C.F.root_of (C.shape c.now) x.now seed j k }
{
    if k == 0 {
        seed
    } else if k <= c.calls() {
        c.input(x, k, j)
    } else {
        C::F::zero()
    }
}

/// Wire polynomial `j`, of P = 2^log coefficients.
fn wire_of<C: Circuit>(
    alloc: Global,
    c: &C,
    x: &[C::F],
    seed: C::F,
    j: usize,
    log: u8,
) -> Result<Vec<C::F>, AllocError>
    requires log { log ≡ wire_log (C.shape c.now).calls }
    requires few { log ≤ 11 }
    requires input { length x.now ≡ (C.shape c.now).input_len }
    requires wire { j < (C.shape c.now).arity }
    ensures { IfOk result (λ p. p.items ≡ interpolated C.F.ring C.F.half_of C.F.root_of log
        (wire_values C.F.ring C.F.half_of C.F.root_of (C.shape c.now) x.now seed j)) }
{
    let order: usize = 1 << log;
    let mut values = Vec::new(alloc);
    for k in 0..order {
        values.push(wire_value_at(c, x, seed, j, k))?;
    }
    inverse(&mut values);
    Ok(values)
}

/// All wire polynomials of an input, or of a share of one, and of its wire seeds, which may have more behind them.
pub fn wires_of<C: Circuit>(
    alloc: Global,
    c: &C,
    x: &[C::F],
    seeds: &[C::F],
    log: u8,
) -> Result<Vec<Vec<C::F>>, AllocError>
    requires log { log ≡ wire_log (C.shape c.now).calls }
    requires few { log ≤ 11 }
    requires input { length x.now ≡ (C.shape c.now).input_len }
    requires seeds { (C.shape c.now).arity ≤ length seeds.now }
    ensures { IfOk result (λ all. map (λ w. w.items) all.items
        ≡ map (wire C.F.ring C.F.half_of C.F.root_of (C.shape c.now) x.now seeds.now)
        (range_with_len 0 (C.shape c.now).arity)) }
{
    let mut wires = Vec::new(alloc);
    for j in 0..c.arity() {
        wires.push(wire_of(alloc, c, x, seeds[j], j, log)?)?;
    }
    Ok(wires)
}

/// The values of all wire polynomials at the powers of the root of order 2 P.
pub fn tables_of<C: Circuit>(
    alloc: Global,
    c: &C,
    x: &[C::F],
    seeds: &[C::F],
    log: u8,
) -> Result<Vec<Vec<C::F>>, AllocError>
    requires log { log ≡ wire_log (C.shape c.now).calls }
    requires few { log ≤ 11 }
    requires input { length x.now ≡ (C.shape c.now).input_len }
    requires seeds { (C.shape c.now).arity ≤ length seeds.now }
    ensures { IfOk result (λ all. map (λ w. w.items) all.items
        ≡ map (λ j. values_at_powers C.F.ring (C.F.root_of (log + 1)) (2 ^ (log + 1))
        (wire C.F.ring C.F.half_of C.F.root_of (C.shape c.now) x.now seeds.now j)) (range_with_len 0 (C.shape c.now).arity)) }
{
    let mut tables = Vec::new(alloc);
    for j in 0..c.arity() {
        let w = wire_of(alloc, c, x, seeds[j], j, log)?;
        tables.push(values_at_roots(alloc, &w, log + 1)?)?;
    }
    Ok(tables)
}
