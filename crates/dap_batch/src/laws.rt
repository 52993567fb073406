//! Laws of checksums.

ghost use Rattle.std.specs.Prelude.{◌≡◌, List, ℕ, ◌∷◌, ◌++◌};
ghost use Rattle.dap_batch.specs.Checksum.{checksum_of, xor_bytes};

/// A law: a checksum is its own inverse: an identifier that is added twice leaves it as if it had never been added.
pub fn twice_is_never_for_checksums()
    ensures { (id : List ℕ) (ids : List (List ℕ)) → checksum_of (id ∷ (id ∷ ids)) ≡ checksum_of ids }
{}

/// A law: a checksum doesn't depend on when an identifier was added.
pub fn no_order_changes_a_checksum()
    ensures { (id : List ℕ) (before after : List (List ℕ))
        → checksum_of (before ++ id ∷ after) ≡ checksum_of (id ∷ (before ++ after)) }
{}

/// A law: the checksum of two parts taken together is the exclusive or of theirs.
pub fn checksums_of_parts_join()
    ensures { (ids more : List (List ℕ)) → checksum_of (ids ++ more) ≡ xor_bytes (checksum_of ids) (checksum_of more) }
{}
