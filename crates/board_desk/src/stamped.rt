/// An answer of the desk, and the point of the history at which it was given.
#[derive(Drop)]
pub struct Stamped<T> {
    /// The length of the history after the call that was answered.
    pub front: u64,
    pub answer: T,
}
