//! The contents of a new id's record.
ghost use Rattle.std.specs.Prelude.{◌≡◌};

/// A record that a new id can have. To make one takes no memory.
pub trait Blank: Drop {
    /// The contents of a new id's record.
    ghost blank: { Self };

    /// The contents of a new id's record.
    fn blank() -> Self
        ensures { result ≡ blank };
}
