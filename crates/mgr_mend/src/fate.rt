//! What becomes of a line.
ghost use Rattle.std.specs.Prelude.{◌≡◌};
ghost use Rattle.mgr_mend.specs.Mending as spec;

/// What becomes of a line, or of the rest.
#[derive(Clone, Copy)]
pub enum Fate {
    /// It stays as it is.
    Kept,
    /// The lines of those of its operations that are not beaten stand in its place.
    Beaten,
    /// It is no operation, and left out.
    Faulty,
}

impl Fate {
    pub(crate) fn is_faulty(self) -> bool
        ensures { result ≡ spec.is_faulty self }
    {
        match self {
            Fate::Faulty => true,
            Fate::Kept | Fate::Beaten => false,
        }
    }

    pub(crate) fn is_beaten(self) -> bool
        ensures { result ≡ spec.is_beaten_line self }
    {
        match self {
            Fate::Beaten => true,
            Fate::Kept | Fate::Faulty => false,
        }
    }
}
