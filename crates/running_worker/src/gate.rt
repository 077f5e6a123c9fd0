use mill_model::Path;

/// What a worker passes once for each ticket that it draws, before it closes the path that it
/// holds. A pass may wait. Nothing rests on it.
pub trait Gate: Sync {
    fn pass(&self, worker: u16, path: &Path);
}

/// A gate that never waits.
#[derive(Drop)]
pub struct OpenGate;

impl Gate for OpenGate {
    fn pass(&self, _worker: u16, _path: &Path) {}
}
