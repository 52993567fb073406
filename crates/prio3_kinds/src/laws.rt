//! What each kind measures.
ghost use Rattle.std.specs.Prelude.{◌≡◌, ◌+◌, ◌<◌, ◌^◌, ℕ, List, [], ◌∷◌, length, filter_map, Some, true};
ghost use Rattle.std.specs.Option.{is_some};
ghost use Rattle.std.specs.List.{All};
ghost use Rattle.field64.specs.Element as small;
ghost use Rattle.field128.specs.Element as wide;
ghost use Rattle.flp_circuits.specs.Kinds.{bucket, count_shape, histogram_shape, sum_shape};
ghost use Rattle.circuit_vector.specs.Vector.{vector_shape};
ghost use Rattle.vdaf_api.specs.Kind.{AreBounds, IsKind};
ghost use Rattle.vdaf_api.specs.Totals.{total_numbers};
ghost use Rattle.vdaf_api.specs.declared.kind.Kind.{Kind};
ghost use Rattle.vdaf_api.specs.declared.answer.Answer.TheVariants as answer;
ghost use Rattle.vdaf_api.specs.declared.kind.Kind.TheVariants.{Count, Sum, Histogram, Vector};
ghost use Rattle.prio3_prep.specs.Decided.{AcceptedAreDecided};
ghost use Rattle.prio3_kinds.specs.Counted.{IsCountedAs};
ghost use Rattle.prio3_kinds.specs.Kinds.{answer_of, base64, base128, functions_of_kind, is_measurement, one_at};
ghost use Rattle.prio3_kinds.specs.WholeNumbers.{COUNTS_END, whole_answer};

/// A law: the measurements of a kind are the lists that `is_measurement` says: for a count, a sum and a histogram lists
/// of one number, for a vector lists of its length.
pub fn measurements_are_of_their_kind()
    ensures { (kind : Kind) (ms : List ℕ) → is_some ((functions_of_kind kind).encoding ms) ≡ is_measurement kind ms }
{}

/// A law: a measurement of a count, a sum or a vector is its own vector, and a histogram's vector is 1 in the bucket of
/// the measurement and 0 in the others.
pub fn measurements_have_their_vectors()
    ensures count { (m : ℕ) → m < 2 → (functions_of_kind Count).encoding (m ∷ []) ≡ Some (m ∷ []) }
    ensures sum { (bits m : ℕ) → IsKind (Sum bits) → m < 2 ^ bits
        → (functions_of_kind (Sum bits)).encoding (m ∷ []) ≡ Some (m ∷ []) }
    ensures histogram { (bounds : List ℕ) (m : ℕ)
        → (functions_of_kind (Histogram bounds)).encoding (m ∷ [])
        ≡ Some (one_at (length bounds + 1) (bucket bounds m)) }
    ensures vector { (len bits : ℕ) (ms : List ℕ) → IsKind (Vector len bits)
        → is_measurement (Vector len bits) ms ≡ true → (functions_of_kind (Vector len bits)).encoding ms ≡ Some ms }
{}

/// A law: the answer of a count or a sum is the one number of its vector, whatever it is, and that of a histogram or a
/// vector is its vector.
pub fn answers_are_their_vectors()
    ensures count { (n : ℕ) → (functions_of_kind Count).answer (n ∷ []) ≡ answer.Count n }
    ensures sum { (bits n : ℕ) → (functions_of_kind (Sum bits)).answer (n ∷ []) ≡ answer.Sum n }
    ensures histogram { (bounds v : List ℕ) → (functions_of_kind (Histogram bounds)).answer v ≡ answer.Histogram v }
    ensures vector { (len bits : ℕ) (v : List ℕ) → (functions_of_kind (Vector len bits)).answer v ≡ answer.Vector v }
{}

/// A law: an honest fair report of a count, a sum or a vector is prepared, and its content is the measurement itself; of
/// a histogram it is 1 in the bucket of the measurement and 0 in the others.
pub fn honest_reports_count_themselves()
    ensures count { (m : ℕ) → m < 2 → IsCountedAs (functions_of_kind Count) (m ∷ []) (m ∷ []) }
    ensures sum { (bits m : ℕ) → IsKind (Sum bits) → m < 2 ^ bits
        → IsCountedAs (functions_of_kind (Sum bits)) (m ∷ []) (m ∷ []) }
    ensures histogram { (bounds : List ℕ) (m : ℕ) → AreBounds bounds
        → IsCountedAs (functions_of_kind (Histogram bounds)) (m ∷ [])
        (one_at (length bounds + 1) (bucket bounds m)) }
    ensures vector { (len bits : ℕ) (ms : List ℕ) → IsKind (Vector len bits)
        → is_measurement (Vector len bits) ms ≡ true → IsCountedAs (functions_of_kind (Vector len bits)) ms ms }
{}

/// A law: the answer of the sum of fewer than 2^25 measurements' vectors is that of whole numbers, since no such sum
/// reaches a modulus: how many are 1, their sum, how many fall into each bucket, or their sum number by number.
pub fn answers_are_whole_numbers()
    ensures { (kind : Kind) (measurements : List (List ℕ)) → IsKind kind
        → All (λ ms. is_measurement kind ms ≡ true) measurements → length measurements < COUNTS_END
        → let f = functions_of_kind kind in
        f.answer (total_numbers f.space (filter_map f.encoding measurements)) ≡ whole_answer kind measurements }
{}

/// A law: of each kind, the halves of a report whose verdict is ok add to an input and a proof that the kind's circuit
/// accepts. So a report whose halves don't has the verdict failed.
pub fn accepted_reports_are_decided()
    ensures count { AcceptedAreDecided base64 (count_shape small.ring_of) 0 (answer_of Count) }
    ensures sum { (bits : ℕ) → IsKind (Sum bits)
        → AcceptedAreDecided base128 (sum_shape wide.ring_of bits) 1 (answer_of (Sum bits)) }
    ensures histogram { (bounds : List ℕ) → AreBounds bounds
        → AcceptedAreDecided base128 (histogram_shape wide.ring_of bounds) 2 (answer_of (Histogram bounds)) }
    ensures vector { (len bits : ℕ) → IsKind (Vector len bits)
        → AcceptedAreDecided base128 (vector_shape wide.ring_of len bits) 3 (answer_of (Vector len bits)) }
{}
