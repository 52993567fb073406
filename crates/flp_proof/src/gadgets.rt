//! The gadget at many places.

ghost use Rattle.std.specs.Prelude.{◌≡◌, ◌^◌, ◌≤◌, ◌++◌, length, map, IfOk, OnOk, slice_index_or};
ghost use Rattle.std.specs.List.{range_with_len};
ghost use Rattle.field_laws.specs.Polynomial.{eval};
ghost use Rattle.flp_circuits.specs.Shape.{gadget};

use crate::values::entry_at;
use field_laws::Field;
use flp_circuits::Circuit;
use poly_plain::eval;
use std::alloc::{AllocError, Global};

/// Appends elements.
pub fn push_all<F: Field>(out: &mut Vec<F>, from: &[F]) -> Result<(), AllocError>
    ensures { OnOk result (out.new.items ≡ out.old.items ++ from.now) }
{
    for x in from {
        out.push(*x)?;
    }
    Ok(())
}

/// Appends the value of each polynomial at `t`.
pub fn push_values<F: Field>(out: &mut Vec<F>, wires: &[Vec<F>], t: F) -> Result<(), AllocError>
    ensures { OnOk result (out.new.items ≡ out.old.items ++ map (λ w. eval F.ring w.items t) wires.now) }
{
    for w in wires {
        out.push(eval(w, t))?;
    }
    Ok(())
}

/// Appends entry `k` of each table, zero where there is none.
fn push_entries<F: Field>(out: &mut Vec<F>, tables: &[Vec<F>], k: usize) -> Result<(), AllocError>
    ensures { OnOk result (out.new.items
        ≡ out.old.items ++ map (λ w. slice_index_or w.items k F.ring.nought) tables.now) }
{
    for table in tables {
        out.push(entry_at(table, k))?;
    }
    Ok(())
}

/// The gadget of the tables' entries at each of 2^log places.
pub fn gadget_values<C: Circuit>(
    alloc: Global,
    c: &C,
    tables: &[Vec<C::F>],
    log: u8,
) -> Result<Vec<C::F>, AllocError>
    requires few { log ≤ 12 }
    requires wires { length tables.now ≡ (C.shape c.now).arity }
    ensures { IfOk result (λ v. v.items ≡ map (λ k. gadget C.F.ring (C.shape c.now)
        (map (λ w. slice_index_or w.items k C.F.ring.nought) tables.now)) (range_with_len 0 (2 ^ log))) }
{
    let order: usize = 1 << log;
    let mut values = Vec::new(alloc);
    for k in 0..order {
        let mut at = Vec::new(alloc);
        push_entries(&mut at, tables, k)?;
        values.push(c.gadget(&at))?;
    }
    Ok(values)
}
