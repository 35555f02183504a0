// From a tree to the code that runs as it is scanned.

ghost use Rattle.std.specs.Prelude.{◌≡◌, ◌≤◌, ◌+◌, ◌++◌, IfOk, OnOk, map, length};
ghost use Rattle.st_exec.specs.Code.{all_of, body_code, branch_code, expr_code, given_code, stmt_code, term_code};
ghost use Rattle.st_exec.specs.Jumps.{branches_over, side_over};

use crate::from_end::CodeFromEnd;
use crate::instruction::{Act, Instruction, Use};
use crate::values::truth_of;
use motion_numbers::OutOfMemory;
use st_tree::{Branch, Expr, Given, Stmt, Term};
use std::alloc::Global;

// The code of an expression.
#[cycle(expression)]
fn put_expr(code: &mut CodeFromEnd, e: &Expr) -> Result<(), OutOfMemory>
    ensures { OnOk result (code.new ≡ expr_code e.now ++ code.old) }
{
    match e {
        Expr::Number(n) => code.put_act(Act::Push(*n)),
        Expr::Truth(holds) => code.put_act(Act::Push(truth_of(*holds))),
        Expr::Variable(x) => code.put_act(Act::Load(*x)),
        Expr::Flag { instance, flag } => code.put_act(Act::Show {
            instance: *instance,
            flag: *flag,
        }),
        Expr::Negative(a) => {
            code.put_use(Use::Negate)?;
            put_expr(code, a)
        }
        Expr::Not(a) => {
            code.put_use(Use::Invert)?;
            put_expr(code, a)
        }
        Expr::Chain { first, terms } => {
            put_terms(code, terms.as_slice())?;
            put_expr(code, first)
        }
    }
}

// The codes of the terms of a chain.
#[cycle(expression)]
fn put_terms(code: &mut CodeFromEnd, terms: &[Term]) -> Result<(), OutOfMemory>
    ensures { OnOk result (code.new ≡ all_of (map term_code terms.now) ++ code.old) }
{
    let mut left = terms.len();
    while 0 < left {
        left -= 1;
        let term = &terms[left];
        code.put_use(Use::Join(term.operator))?;
        put_expr(code, &term.operand)?;
    }
    Ok(())
}

// The code of what a key gives.
fn put_given(code: &mut CodeFromEnd, given: &Given) -> Result<(), OutOfMemory>
    ensures { OnOk result (code.new ≡ given_code given.now ++ code.old) }
{
    match given {
        Given::Number { key, value } => {
            code.put_use(Use::Give(*key))?;
            put_expr(code, value)
        }
        Given::Mode(mode) => code.put_act(Act::Choose(*mode)),
        Given::Master(axis) => code.put_act(Act::Follow(*axis)),
    }
}

// The codes of what the keys of a call give.
fn put_all_given(code: &mut CodeFromEnd, given: &[Given]) -> Result<(), OutOfMemory>
    ensures { OnOk result (code.new ≡ all_of (map given_code given.now) ++ code.old) }
{
    let mut left = given.len();
    while 0 < left {
        left -= 1;
        put_given(code, &given[left])?;
    }
    Ok(())
}

// The code of a statement.
#[cycle(statement)]
fn put_stmt(code: &mut CodeFromEnd, statement: &Stmt) -> Result<(), OutOfMemory>
    ensures { OnOk result (code.new ≡ stmt_code statement.now ++ code.old) }
{
    match statement {
        Stmt::Set { variable, value } => {
            code.put_use(Use::Store(*variable))?;
            put_expr(code, value)
        }
        Stmt::Call {
            instance,
            execute,
            given,
        } => {
            code.put(Instruction::Ask(*instance))?;
            put_all_given(code, given.as_slice())?;
            code.put_use(Use::Begin)?;
            put_expr(code, execute)
        }
        Stmt::If {
            condition,
            then,
            otherwise,
        } => {
            let left = code.len();
            put_body(code, otherwise.as_slice())?;
            let passed = put_side(code, then.as_slice(), left)?;
            code.put_use(Use::Unless(passed))?;
            put_expr(code, condition)
        }
        Stmt::Case {
            selector,
            branches,
            otherwise,
        } => {
            let left = code.len();
            put_body(code, otherwise.as_slice())?;
            code.put_use(Use::Forget)?;
            put_branches(code, branches.as_slice(), left)?;
            put_expr(code, selector)
        }
    }
}

// The codes of statements, one after another.
#[cycle(statement)]
fn put_body(code: &mut CodeFromEnd, body: &[Stmt]) -> Result<(), OutOfMemory>
    ensures { OnOk result (code.new ≡ all_of (map stmt_code body.now) ++ code.old) }
{
    let mut left = body.len();
    while 0 < left {
        left -= 1;
        put_stmt(code, &body[left])?;
    }
    Ok(())
}

// The code of a side of a choice, with a jump to where this many instructions are left; says how
// many instructions these are.
#[cycle(statement)]
fn put_side(code: &mut CodeFromEnd, body: &[Stmt], left: usize) -> Result<usize, OutOfMemory>
    requires { left ≤ length code.old }
    ensures code { OnOk result
        (code.new ≡ side_over (all_of (map stmt_code body.now)) left code.old) }
    ensures passed { IfOk result (λ n. n ≡ length (all_of (map stmt_code body.now)) + 1) }
{
    let before = code.len();
    code.put_act(Act::Pass(before - left))?;
    put_body(code, body)?;
    Ok(code.len() - before)
}

// The codes of branches, with jumps to where this many instructions are left.
#[cycle(statement)]
fn put_branches(code: &mut CodeFromEnd, branches: &[Branch], left: usize) -> Result<(), OutOfMemory>
    requires { left ≤ length code.old }
    ensures { OnOk result (code.new ≡ branches_over (map branch_code branches.now) left code.old) }
{
    let mut next = branches.len();
    while 0 < next {
        next -= 1;
        let branch = &branches[next];
        let passed = put_side(code, branch.body.as_slice(), left)?;
        code.put_use(Use::Match {
            value: branch.value,
            passed,
        })?;
    }
    Ok(())
}

/// The code of a task's statements.
#[tactic(auto, unfolding(crate::specs::Code::body_code))]
pub fn code_of_body(alloc: Global, body: &[Stmt]) -> Result<Vec<Instruction>, OutOfMemory>
    ensures { IfOk result (λ code. code.items ≡ body_code body.now) }
{
    let mut code = CodeFromEnd::new(alloc);
    put_body(&mut code, body)?;
    Ok(code.finish())
}
