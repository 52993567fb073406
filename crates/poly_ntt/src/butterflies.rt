//! The halving of the transform.

ghost use Rattle.std.specs.Prelude.{◌≡◌, ◌≤◌, ◌^◌, length};
ghost use Rattle.field_laws.specs.Polynomial.{add_polynomials};
ghost use Rattle.poly_ntt.specs.Transform.{twisted, halving};

use field_laws::Field;

/// Sums into the front, and differences into the back, entry i of these times `root` to the power i.
fn butterfly<F: Field>(front: &mut [F], back: &mut [F], root: F)
    requires { length front.old ≡ length back.old }
    ensures sums { front.new ≡ add_polynomials F.ring front.old back.old }
    ensures differences { back.new ≡ twisted F.ring root F.ring.unit front.old back.old }
{
    let mut w = F::one();
    for i in 0..front.len() {
        let a = front[i];
        let b = back[i];
        front[i] = a.add(b);
        back[i] = a.sub(b).mul(w);
        w = w.mul(root);
    }
}

/// Butterflies over the whole, over each half, and so on: the values at the powers of `root`, in bit-reversed order.
pub fn halve<F: Field>(p: &mut [F], log: u8, root: F)
    requires few { log ≤ 12 }
    requires size { length p.old ≡ 2 ^ log }
    requires root { root ≡ F.root_of log }
    ensures { p.new ≡ halving F.ring F.root_of log p.old }
{
    if log > 0 {
        let half = p.len() / 2;
        let (front, back) = p.split_at_mut(half);
        butterfly(front, back, root);
        let square = root.mul(root);
        halve(front, log - 1, square);
        halve(back, log - 1, square);
    }
}
