//! The version of generated code.
ghost use Rattle.std.specs.Prelude.{◌≡◌, ◌↔◌, IsTrue, codes};

/// Returns whether code generated for this version of planus, such as `planus-1.3.0`, can be used:
/// only for this very version.
pub fn check_version_compatibility(version: &str) -> bool
    ensures { IsTrue result ↔ (version.now ≡ codes "planus-1.3.0") }
{
    version == "planus-1.3.0"
}
