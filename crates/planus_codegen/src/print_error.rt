ghost use Rattle.std.specs.Prelude.{◌≡◌};

use std::alloc::AllocError;

/// Why no code is printed.
#[derive(Debug, Drop)]
pub enum PrintError {
    OutOfMemory,
    /// What isn't supported, and the full name of the declaration with it.
    Unsupported { what: &'static str, name: Vec<u8> },
    /// The printed code isn't the schema's.
    Untied,
}

impl From<AllocError> for PrintError {
    ghost use Rattle.planus_codegen.specs.declared.print_error.PrintError.TheVariants.{OutOfMemory};

    ghost from_gives = { λ _ error. error ≡ OutOfMemory };

    fn from(_error: AllocError) -> PrintError {
        PrintError::OutOfMemory
    }
}
