//! What an input share holds.
ghost use Rattle.std.specs.Prelude.{◌≡◌, length, IfSome};
ghost use Rattle.std.proofs.Props.{props};

/// A half of an input and of its proof, with the blind of the half's part where there is joint randomness.
#[derive(Drop)]
pub(crate) struct InputHalf<F> {
    pub(crate) x: Vec<F>,
    pub(crate) proof: Vec<F>,
    pub(crate) blind: Option<[u8; 16]>,
    pub ghost blind_size: { IfSome blind (λ b. length b ≡ 16) } by { Prim.hlevel props },
}
