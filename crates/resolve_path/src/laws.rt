//! What holds of the definitions: calls that do nothing and whose clauses are the laws.
ghost use Rattle.std.specs.Prelude.{◌≡◌, ℕ, List};
ghost use Rattle.resolve_path.specs.Manifests.{IsReading, ManifestReading};

/// Each text is a manifest or is none, so that there is a resolution of each request; and there is no other.
pub fn one_reading()
    ensures some { (reading : ManifestReading) × IsReading reading }
    ensures only { (reading other : ManifestReading) → IsReading reading → IsReading other → reading ≡ other }
{}
