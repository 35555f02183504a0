// Gates round the turns of tasks.

use crate::OutOfMemory;

/// A gate that each turn of a task passes. It may hold a turn back, and change nothing else.
pub trait Gate: Sized {
    /// Called before a turn of this task.
    fn before(&self, task: u8);

    /// Called after a turn of this task was answered.
    fn after(&self, task: u8);

    /// Another gate that shares the state of this one.
    fn twin(&self) -> Result<Self, OutOfMemory>;
}

/// The gate that is always open.
#[derive(Clone, Copy, Debug)]
pub struct OpenGate;

impl Gate for OpenGate {
    fn before(&self, _task: u8) {}

    fn after(&self, _task: u8) {}

    fn twin(&self) -> Result<OpenGate, OutOfMemory> {
        Ok(OpenGate)
    }
}
