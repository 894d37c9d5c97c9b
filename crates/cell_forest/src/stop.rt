use std::alloc::AllocError;

/// Why there is no guess.
#[derive(Clone, Copy)]
pub enum Stop {
    /// Memory ran out.
    Memory,
    /// The steps ran out.
    GivenUp,
    /// A number did not fit its cell. In greater cells one can go on.
    Unfit,
}

impl From<AllocError> for Stop {
    fn from(_: AllocError) -> Stop {
        Stop::Memory
    }
}
