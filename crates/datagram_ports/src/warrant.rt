//! What lets bytes be sent.
ghost use Rattle.faults.specs.Bytes.{Text};

/// A reason why bytes may be sent. A port takes only bytes that a warrant covers.
pub trait Warrant {
    /// Whether it covers these bytes.
    ghost covers: { Self → Text → Type 0 };
}
