//! The order in which halving leaves the values.

ghost use Rattle.std.specs.Prelude.{◌≡◌, ◌≤◌, ◌<◌, ◌^◌, ℕ, length, slice_index_or};
ghost use Rattle.poly_ntt.specs.Transform.{reversed};

use field_laws::Field;

/// The index with its lowest `log` binary digits in reverse.
fn reverse_digits(i: usize, log: u8) -> usize
    requires few { log ≤ 12 }
    requires small { i < 2 ^ log }
    ensures { result ≡ reversed log i }
{
    let mut made: usize = 0;
    let mut rest = i;
    let mut left = log;
    while left > 0 {
        made = made * 2 + rest % 2;
        rest /= 2;
        left -= 1;
    }
    made
}

/// Puts 2^log entries out of bit-reversed order, or into it.
pub fn reorder<F: Field>(p: &mut [F], log: u8)
    requires few { log ≤ 12 }
    requires size { length p.old ≡ 2 ^ log }
    ensures { (k : ℕ) → k < 2 ^ log
        → slice_index_or p.new k F.ring.nought ≡ slice_index_or p.old (reversed log k) F.ring.nought }
{
    for i in 0..p.len() {
        let j = reverse_digits(i, log);
        if i < j {
            p.swap(i, j);
        }
    }
}
