//! What a walk does next.

/// What a walk does next.
#[derive(Clone, Copy, Debug)]
pub(crate) enum Stage {
    /// It enters the configuration here.
    Enter,
    /// It tries the alternatives here, from this place on.
    Try(u64),
    /// It goes back to the choice above.
    Back,
}
