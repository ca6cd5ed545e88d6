//! What holds of the spellings of all snapshots and run records. Each function's contract is the law, and its body is empty.

ghost use Rattle.std.specs.Prelude.{◌≡◌, ℕ, List, ◌++◌, []};
ghost use Rattle.ga_codec.specs.Shapes.{FitsDelta, FitsSnapshot, IsNoDelta, IsNoSnapshot, SpellDelta, SpellSnapshot};
ghost use Rattle.ga_codec.specs.Spelling.{delta_bytes, snapshot_bytes};
ghost use Rattle.ga_codec.specs.Values.{DeltaValue, SnapshotValue};

/// Of two spellings of snapshots that begin the same bytes neither goes past the other, and they spell one value. So one
/// value has one spelling, and no spelling is a proper prefix of another.
pub fn one_snapshot()
    ensures { (a b : SnapshotValue) (x y : List ℕ) → FitsSnapshot a → FitsSnapshot b → snapshot_bytes a ++ x ≡ snapshot_bytes b ++ y → (a ≡ b) × (x ≡ y) }
{}

/// The same of run records.
pub fn one_delta()
    ensures { (a b : DeltaValue) (x y : List ℕ) → FitsDelta a → FitsDelta b → delta_bytes a ++ x ≡ delta_bytes b ++ y → (a ≡ b) × (x ≡ y) }
{}

/// Bytes are the spelling of one snapshot, or of none from one place on.
pub fn one_reading()
    ensures value { (bytes : List ℕ) (a b : SnapshotValue) → SpellSnapshot bytes a → SpellSnapshot bytes b → a ≡ b }
    ensures place { (bytes : List ℕ) (m n : ℕ) → IsNoSnapshot bytes m → IsNoSnapshot bytes n → m ≡ n }
    ensures apart { (bytes : List ℕ) (s : SnapshotValue) (at : ℕ) → SpellSnapshot bytes s → IsNoSnapshot bytes at → ⊥ }
{}

/// The same of run records.
pub fn one_delta_reading()
    ensures value { (bytes : List ℕ) (a b : DeltaValue) → SpellDelta bytes a → SpellDelta bytes b → a ≡ b }
    ensures place { (bytes : List ℕ) (m n : ℕ) → IsNoDelta bytes m → IsNoDelta bytes n → m ≡ n }
    ensures apart { (bytes : List ℕ) (d : DeltaValue) (at : ℕ) → SpellDelta bytes d → IsNoDelta bytes at → ⊥ }
{}

/// There are no bytes that are neither: which spell no snapshot, and have no place where they stop beginning one.
pub fn some_reading()
    ensures { (bytes : List ℕ) → ((s : SnapshotValue) → SpellSnapshot bytes s → ⊥) → ((at : ℕ) → IsNoSnapshot bytes at → ⊥) → ⊥ }
{}

/// The same of run records.
pub fn some_delta_reading()
    ensures { (bytes : List ℕ) → ((d : DeltaValue) → SpellDelta bytes d → ⊥) → ((at : ℕ) → IsNoDelta bytes at → ⊥) → ⊥ }
{}
