//! Lines that aren't printed yet.
ghost use Rattle.std.specs.Prelude.{◌≡◌};
ghost use Rattle.planus_dump.specs.Faults.{is_fault};
ghost use Rattle.planus_dump.specs.Views.{cost};
ghost use Rattle.planus_dump.specs.inner.Shown.{event_of};

/// The bits of a float.
#[derive(Clone, Copy)]
pub enum Bits {
    F32(u32),
    F64(u64),
}

#[derive(Drop)]
pub enum Line {
    Text(String),
    /// A line that states an error.
    Fault(String),
    Float(String, Bits),
}

impl Line {
    pub fn is_fault(&self) -> bool
        ensures { result ≡ is_fault (event_of self.now) }
    {
        matches!(self, Line::Fault(_))
    }

    /// A line's own bytes, or those of the path, ` = ` and 32.
    pub fn size(&self) -> usize
        ensures { result ≡ cost (event_of self.now) }
    {
        match self {
            Line::Text(text) | Line::Fault(text) => text.len(),
            Line::Float(path, _) => path.len() + 35,
        }
    }
}
