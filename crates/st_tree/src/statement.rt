// Statements.

use crate::call::Given;
use crate::expression::Expr;

/// A statement.
#[cycle(statement)]
#[derive(Drop)]
pub enum Stmt {
    /// Gives a variable of the task, by its number, a value.
    Set {
        variable: u32,
        value: Expr,
    },
    /// Calls a block, by its number. The keys stand in the order of the text.
    Call {
        instance: u16,
        execute: Expr,
        given: Vec<Given>,
    },
    If {
        condition: Expr,
        then: Vec<Stmt>,
        otherwise: Vec<Stmt>,
    },
    Case {
        selector: Expr,
        branches: Vec<Branch>,
        otherwise: Vec<Stmt>,
    },
}

/// A branch of a `CASE`.
#[cycle(statement)]
#[derive(Drop)]
pub struct Branch {
    pub value: i32,
    pub body: Vec<Stmt>,
}
