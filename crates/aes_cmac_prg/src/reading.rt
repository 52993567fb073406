//! A law of readings.

ghost use Rattle.std.specs.Prelude.{◌≡◌, ℕ, List, sum};
ghost use Rattle.aes_cmac_prg.specs.Stream.{bytes_at, in_pieces};

/// A law: two readings of one stream give the same bytes, whatever pieces they are taken in: the pieces,
/// one behind the other, are what one reading of them all gives.
pub fn pieces_are_one_reading()
    ensures as_one_reading { (key : List ℕ) (place : ℕ) (sizes : List ℕ)
        → in_pieces key place sizes ≡ bytes_at key place (sum sizes) }
    ensures whatever_the_pieces { (key : List ℕ) (place : ℕ) (sizes others : List ℕ) → sum sizes ≡ sum others
        → in_pieces key place sizes ≡ in_pieces key place others }
{}
