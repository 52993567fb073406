//! Out shares as bytes: tests and sums.
ghost use Rattle.std.specs.Prelude.{◌≡◌, ◌+◌, ◌*◌, ◌%◌, ◌<◌, ◌≤◌, ◌↔◌, ℕ, List, ◌++◌, Some, IfOk, OnOk, length, slice_index, IsTrue};
ghost use Rattle.field_laws.specs.Bytes.{low_bytes, from_low};
ghost use Rattle.field_laws.specs.Vector.{add_each};
ghost use Rattle.vdaf_api.specs.Vectors.{IsOut, plus, zero_share, numbers, spelled, vector_of, IsVector, SpaceLaws};

use crate::space::Space;
use std::alloc::{AllocError, Global};

impl Space {
    /// Whether the bytes are an out share. It takes no memory.
    pub fn is_out(&self, bytes: &[u8]) -> bool
        requires { SpaceLaws self.now }
        ensures { IsTrue result ↔ IsOut self.now bytes.now }
    {
        is_vector(self.modulus, self.width, self.size, bytes)
    }

    /// The numbers that an out share holds, in order.
    pub fn numbers(&self, alloc: Global, out: &[u8]) -> Result<Vec<u128>, AllocError>
        requires space { SpaceLaws self.now }
        requires out { IsOut self.now out.now }
        ensures numbers { IfOk result (λ v. v.items ≡ numbers self.now out.now) }
        ensures size { IfOk result (λ v. length v.items ≡ self.now.size) }
        ensures below { IfOk result (λ v. (i : ℕ) → slice_index v.items i < self.now.modulus) }
    {
        let mut numbers = Vec::new(alloc);
        read_from(self.width, self.size, out, &mut numbers)?;
        Ok(numbers)
    }

    /// The out share of noughts.
    pub fn zero(&self, alloc: Global) -> Result<Vec<u8>, AllocError>
        requires { SpaceLaws self.now }
        ensures { IfOk result (λ v. v.items ≡ zero_share self.now) }
    {
        Ok(vec![in alloc; 0u8; self.size * self.width]?)
    }

    /// Adds an out share to another in place. It takes no memory.
    pub fn add(&self, total: &mut [u8], out: &[u8])
        requires space { SpaceLaws self.now }
        requires total { IsOut self.now total.old }
        requires out { IsOut self.now out.now }
        ensures { total.new ≡ plus self.now total.old out.now }
    {
        add_from(self.modulus, self.width, self.size, total, out)
    }

    /// The sum of two out shares.
    pub fn sum(&self, alloc: Global, leader: &[u8], helper: &[u8]) -> Result<Vec<u8>, AllocError>
        requires space { SpaceLaws self.now }
        requires leader { IsOut self.now leader.now }
        requires helper { IsOut self.now helper.now }
        ensures { IfOk result (λ v. v.items ≡ plus self.now leader.now helper.now) }
    {
        let mut total = leader.to_vec(alloc)?;
        self.add(&mut total, helper);
        Ok(total)
    }

    /// The numbers that the sum of two out shares holds, in order.
    pub fn sum_numbers(
        &self,
        alloc: Global,
        leader: &[u8],
        helper: &[u8],
    ) -> Result<Vec<u128>, AllocError>
        requires space { SpaceLaws self.now }
        requires leader { IsOut self.now leader.now }
        requires helper { IsOut self.now helper.now }
        ensures numbers { IfOk result (λ v. v.items ≡ numbers self.now (plus self.now leader.now helper.now)) }
        ensures size { IfOk result (λ v. length v.items ≡ self.now.size) }
        ensures below { IfOk result (λ v. (i : ℕ) → slice_index v.items i < self.now.modulus) }
    {
        let total = self.sum(alloc, leader, helper)?;
        self.numbers(alloc, &total)
    }
}

/// The number that these bytes spell, the lowest first.
pub fn number(bytes: &[u8]) -> u128
    requires { length bytes.now ≤ 16 }
    ensures { result ≡ from_low bytes.now }
{
    let mut value: u128 = 0;
    let mut left = bytes.len();
    while left > 0 {
        left -= 1;
        value = value * 256 + u128::from(bytes[left]);
    }
    value
}

/// The lowest bytes of a number, `width` of them.
pub fn low(alloc: Global, width: usize, value: u128) -> Result<Vec<u8>, AllocError>
    ensures { IfOk result (λ v. v.items ≡ low_bytes width value) }
{
    let mut out = vec![in alloc; 0u8; width]?;
    put(&mut out, value);
    Ok(out)
}

/// Writes the lowest bytes of a number.
fn put(out: &mut [u8], value: u128)
    ensures { out.new ≡ low_bytes (length out.old) value }
{
    if out.len() > 0 {
        let (first, rest) = out.split_at_mut(1);
        first[0] = (value % 256) as u8;
        put(rest, value / 256);
    }
}

fn add_modulo(p: u128, a: u128, b: u128) -> u128
    requires a { a < p }
    requires b { b < p }
    ensures { result ≡ (a + b) % p }
{
    let room = p - b;
    if a >= room { a - room } else { a + b }
}

/// Whether the bytes spell `size` numbers below `p`, each in `width` bytes, the lowest first. It takes no memory.
pub fn is_vector(p: u128, width: usize, size: usize, bytes: &[u8]) -> bool
    requires { width ≤ 16 }
    ensures { IsTrue result ↔ IsVector p width size bytes.now }
{
    if size == 0 {
        return bytes.is_empty();
    }
    if bytes.len() < width {
        return false;
    }
    let (first, rest) = bytes.split_at(width);
    number(first) < p && is_vector(p, width, size - 1, rest)
}

/// Appends the numbers that the bytes spell.
fn read_from(
    width: usize,
    size: usize,
    bytes: &[u8],
    numbers: &mut Vec<u128>,
) -> Result<(), AllocError>
    requires width { width ≤ 16 }
    requires length { length bytes.now ≡ size * width }
    ensures { (p : ℕ) (xs : List ℕ) → vector_of p width size bytes.now ≡ Some xs
        → OnOk result (numbers.new.items ≡ numbers.old.items ++ xs) }
{
    if size == 0 {
        return Ok(());
    }
    let (first, rest) = bytes.split_at(width);
    numbers.push(number(first))?;
    read_from(width, size - 1, rest, numbers)
}

fn add_from(p: u128, width: usize, size: usize, total: &mut [u8], out: &[u8])
    requires width { width ≤ 16 }
    requires total { IsVector p width size total.old }
    requires out { IsVector p width size out.now }
    ensures { (xs ys : List ℕ) → vector_of p width size total.old ≡ Some xs → vector_of p width size out.now ≡ Some ys
        → total.new ≡ spelled width (add_each p xs ys) }
{
    if size > 0 {
        let (here, rest) = total.split_at_mut(width);
        let (theirs, more) = out.split_at(width);
        let sum = add_modulo(p, number(here), number(theirs));
        put(here, sum);
        add_from(p, width, size - 1, rest, more);
    }
}
