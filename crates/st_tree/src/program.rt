// Programs and tasks.

use crate::statement::Stmt;
use plc_types::Name;

/// A program: the tasks of a file, 1 to 8, in the file's order.
#[derive(Drop)]
pub struct StProgram {
    pub tasks: Vec<Task>,
}

/// A task: what stands from `PROGRAM` to `END_PROGRAM`.
#[derive(Drop)]
pub struct Task {
    pub name: Name,
    /// The variables in the order of their declarations; their numbers count from 0 in each task.
    pub variables: Vec<Variable>,
    /// The numbers of the blocks that it declares, which count over the whole file.
    pub blocks: Vec<u16>,
    pub body: Vec<Stmt>,
}

/// A variable of a task.
#[derive(Clone, Copy)]
pub struct Variable {
    pub name: Name,
    pub start: Start,
}

/// The type of a variable, and its value before the first scan.
#[derive(Clone, Copy, Debug, PartialEq, Eq)]
pub enum Start {
    Bool(bool),
    Dint(i32),
}
