// What may be expected of a text.

use st_tree::Operator;

/// What is expected next. Where a word or a sign alone is expected, the item has its name.
#[derive(Clone, Copy)]
pub enum Item {
    /// A task, and others.
    File,
    /// Another task, or the text's end.
    Tasks,
    TaskName,
    Var,
    /// Declarations, and `END_VAR`.
    Declarations,
    Colon,
    /// `BOOL`, `DINT` or a kind of block.
    Sort,
    /// What a BOOL begins with, or `;`.
    BoolStart,
    Truth,
    /// What a DINT begins with, or `;`.
    DintStart,
    Signed,
    /// A number after a minus.
    Negative,
    Open,
    Object,
    Close,
    Semicolon,
    Gets,
    EndProgram,
    /// Statements, as many as there are.
    Statements,
    /// `:=` or `(` after a name.
    BehindName,
    Execute,
    /// The expression for `execute` has ended.
    Executed,
    /// `,` and a key, or `)`.
    Keys,
    Key,
    Mode,
    Master,
    /// The expression of a key has ended.
    Given,
    SetEnd,
    CallEnd,
    Then,
    /// `ELSE` and its statements, or `END_IF`.
    Else,
    EndIf,
    Of,
    /// Branches, and what ends them.
    Branches,
    /// A branch's number after a minus.
    NegativeBranch,
    EndCase,
    Expr,
    Conjunction,
    Comparison,
    Sum,
    Product,
    Unary,
    Primary,
    /// `.` and a flag after a name, or none.
    Dot,
    Flag,
    /// The expression in parentheses has ended.
    Parenthesis,
    /// Further operands of `*`, and so on.
    Products,
    Sums,
    Comparisons,
    Conjunctions,
    Disjunctions,
    /// The operand of `-` has ended.
    Minus,
    /// The operand of `NOT` has ended.
    Not,
    /// The operand after this operator has ended.
    Join(Operator),
}
