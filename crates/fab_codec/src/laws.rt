//! Reading undoes writing.
ghost use Rattle.std.specs.Prelude.{◌≡◌, ◌<◌, ◌^◌, ◌++◌, ◌∷◌, ℕ, List, length};
ghost use Rattle.std.specs.Int.{w8, w16, w32, w64, to_be_bytes};
ghost use Rattle.fab_codec.specs.Fields.{run_at, number_at};

/// What a put wrote behind any bytes, a take gives back at that place, whatever stands behind it: a number within the range of its
/// field, and a run of its length.
pub fn fields_law()
    ensures u8 { (front rest : List ℕ) (n : ℕ) → n < 2 ^ 8 → number_at w8 (front ++ (n ∷ rest)) (length front) ≡ Ok n }
    ensures u16 { (front rest : List ℕ) (n : ℕ) → n < 2 ^ 16 → number_at w16 (front ++ (to_be_bytes w16 n ++ rest)) (length front) ≡ Ok n }
    ensures u32 { (front rest : List ℕ) (n : ℕ) → n < 2 ^ 32 → number_at w32 (front ++ (to_be_bytes w32 n ++ rest)) (length front) ≡ Ok n }
    ensures u64 { (front rest : List ℕ) (n : ℕ) → n < 2 ^ 64 → number_at w64 (front ++ (to_be_bytes w64 n ++ rest)) (length front) ≡ Ok n }
    ensures run { (front run rest : List ℕ) → run_at (length run) (front ++ (run ++ rest)) (length front) ≡ Ok run }
{}
