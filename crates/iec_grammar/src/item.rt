// What may be expected of a text.

use iec_tree::{Function, Operator, Section};

/// What is expected next. Where a word or a sign alone is expected, the item has its name; where a
/// part has ended in front of the next token, that of the part.
#[derive(Clone, Copy)]
pub enum Item {
    // ---- files
    /// Enumerations, globals and the first program.
    File,
    /// Further programs, or none.
    Programs,
    Sections,
    EndProgram,
    EnumerationWord,
    /// `:=` and a number, or none.
    EnumerationNumber,
    /// Further words, or `)`.
    EnumerationWords,
    Numbered,
    EndType,

    // ---- words and signs alone
    Name,
    Word,
    Colon,
    Semicolon,
    Gets,
    Open,
    Close,
    OpenIndex,
    CloseIndex,
    UpTo,
    ArrayOf,
    To,

    // ---- declarations
    /// `CONSTANT` or none, and declarations.
    Qualified(Section),
    /// Declarations, and `END_VAR`.
    Declarations(Section),
    Declared,
    /// Further names, or `:`.
    Names,
    Type(Section),
    ElementType,
    /// An axis or group in parentheses, or none.
    Object,
    ObjectName,
    /// `:=` and a value, or none.
    Initial,
    /// A constant, or a list of these.
    InitialValue,
    /// Further constants, or `]`.
    Values,
    DeclarationEnd,

    // ---- constants
    Int,
    /// An int after its minus.
    NegativeInt,
    Constant,
    /// A constant after its minus.
    NegativeConstant,
    /// `.` and a word after the name of a constant, or none.
    BehindConstant,
    ConstantWord,
    Negative,

    // ---- statements
    /// Statements, as many as there are.
    Statements { in_loop: bool },
    /// What stands after the name that begins a statement.
    BehindName,
    /// `:=` after an input of a block.
    BehindWord,
    Assign,
    PlaceElement,
    PlaceMember,
    /// The first argument of a call, or `)`.
    FirstArgument,
    Argument,
    BehindArgument,
    /// Further arguments, or `)`.
    Arguments,
    Input,
    /// A place that an output is assigned to.
    Target,
    BehindTarget,
    Output,
    Then,
    /// `ELSIF`, `ELSE` or `END_IF`.
    Else { in_loop: bool },
    EndIf,
    Of,
    /// The first label, or what ends the statement.
    Branches { in_loop: bool },
    /// Statements of a branch, and the next label or what ends the statement.
    Branch { in_loop: bool },
    /// What stands after a name that begins a statement or a label.
    BehindEither,
    /// What stands after such a name and a word.
    BehindEitherWord,
    /// `..` and an int after the first of a label, or none.
    LabelEnd,
    /// Further labels, or `:`.
    Labels,
    Label,
    Range,
    BranchBegins,
    EndCase,
    /// `BY` and an int, or none, and `DO`.
    By,
    Do,
    EndFor,
    /// `;` after `END_IF` and its like, or none.
    Closed,

    // ---- expressions
    Expression,
    /// An operand of the operators of a level.
    Operand(Level),
    /// Further operators of a level, each with its operand.
    Operators(Level),
    Join(Operator),
    Primary,
    /// What a minus stands before.
    NegativePrimary,
    Not,
    /// What stands after a name.
    BehindOperand,
    /// What stands after a name that is a function's too.
    BehindFunction(Function),
    Element,
    Member,
    /// Further arguments of a function, or `)`.
    FunctionArguments(Function),
    Parenthesis,
}

/// The levels of operators, the tightest first.
#[derive(Clone, Copy, Debug, PartialEq, Eq)]
pub enum Level {
    Product,
    Sum,
    Comparison,
    Equality,
    Conjunction,
    Exclusion,
    Disjunction,
}
