/// A rise from which on each further cycle costs more.
#[derive(Clone, Copy)]
pub(crate) struct Step {
    pub(crate) rise: i32,
    /// What a further cycle costs from there on; while links are added, how much more it costs than below. A joint has a
    /// link for each pixel of a tile's side at most.
    pub(crate) cost: i32,
}

/// Room for a step, which costs nothing.
pub(crate) const NO_STEP: Step = Step { rise: 0, cost: 0 };
