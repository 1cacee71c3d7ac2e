//! Whether an image is of the pair that is wanted.
ghost use Rattle.std.specs.Prelude.{◌≡◌, ◌≢◌, ℕ, Some, true, false};

/// The pair of an image is not the wanted one. Where none is wanted, each will do.
pub fn is_other_pair(wanted: Option<u64>, pair: u64) -> bool
    ensures other { result ≡ true → (asked : ℕ) × (wanted ≡ Some asked) × (asked ≢ pair) }
    ensures same { result ≡ false → (asked : ℕ) → wanted ≡ Some asked → asked ≡ pair }
{
    match wanted {
        Some(asked) => asked != pair,
        None => false,
    }
}
