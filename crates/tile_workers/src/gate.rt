/// What a worker passes before it solves each tile that it claimed, holding no lock. It means nothing; a test can hold a
/// worker by it.
pub trait Gate: Sync {
    /// The worker of this number, from 1, is about to solve a tile.
    fn enter(&self, worker: u32);
}

/// The gate that lets every worker pass.
#[derive(Drop)]
pub struct OpenGate;

impl Gate for OpenGate {
    fn enter(&self, _worker: u32) {}
}
