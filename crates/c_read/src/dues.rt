// The grammar as rows, for the place of what is wrong.
ghost use Rattle.std.specs.Prelude.{◌≡◌, ◌++◌, map, MatchBool, IfOk, OnOk, Some, None};
ghost use Rattle.std.specs.Option.{option_copied};
ghost use Rattle.c_read.specs.declared.dues.Due.TheVariants as Due;
ghost use Rattle.c_read.specs.Dues.{row_of, rows, behind, next, advance};

use crate::kinds::Kind;
use scheme_data::{OutOfMemory, Stack};

/// What is due in a text: a token of a kind, or a part of the grammar. Arguments, types and parameters go to their closing parenthesis, blocks to their closing brace.
#[derive(Clone, Copy, Debug, PartialEq, Eq)]
pub enum Due {
    Token(Kind),
    /// A label that a `goto` may name.
    Target,
    Expression,
    Argument,
    Arguments,
    MoreArguments,
    Block,
    /// Locals and a block.
    Body,
    Items,
    /// An item after its type.
    Named,
    /// An item after its opening parenthesis.
    Params,
    /// An item after `void)`.
    NoParams,
    /// An item after the type of its first parameter.
    FirstParam,
    MoreTypes,
    MoreParams,
}

/// The kind of a first token, and what is due behind it.
#[derive(Clone, Copy)]
pub struct DueRow {
    pub kind: Kind,
    pub more: &'static [Due],
}

macro_rules! row {
    ($kind:ident $(, $more:expr)*) => {
        DueRow {
            kind: Kind::$kind,
            more: &[$($more),*],
        }
    };
}

const OPEN: Due = Due::Token(Kind::OpenParen);

const CLOSE: Due = Due::Token(Kind::CloseParen);

const COMMA: Due = Due::Token(Kind::Comma);

const COLON: Due = Due::Token(Kind::Colon);

const SEMICOLON: Due = Due::Token(Kind::Semicolon);

const EQUALS: Due = Due::Token(Kind::Equals);

const BEGIN: Due = Due::Token(Kind::OpenBrace);

const TYPE: Due = Due::Token(Kind::Type);

const LOCAL: Due = Due::Token(Kind::Local);

const GLOBAL: Due = Due::Token(Kind::Global);

const ENTRY: Due = Due::Token(Kind::Entry);

const ELSE: Due = Due::Token(Kind::Else);

const FOR: Due = Due::Token(Kind::For);

const END_LABEL: Due = Due::Token(Kind::EndLabel);

const TARGET: &[DueRow] = &[row!(Label), row!(EndLabel)];

const EXPRESSION: &[DueRow] = &[
    row!(Local),
    row!(Global),
    row!(Value),
    row!(Function, OPEN, Due::Arguments),
    row!(Entry, OPEN, Due::Arguments),
    row!(Operation, OPEN, Due::Arguments),
];

const ARGUMENT: &[DueRow] = &[
    row!(Local),
    row!(Global),
    row!(Value),
    row!(Quoted),
    row!(And, ENTRY),
];

const ARGUMENTS: &[DueRow] = &[
    row!(CloseParen),
    row!(Local, Due::MoreArguments),
    row!(Global, Due::MoreArguments),
    row!(Value, Due::MoreArguments),
    row!(Quoted, Due::MoreArguments),
    row!(And, ENTRY, Due::MoreArguments),
];

const MORE_ARGUMENTS: &[DueRow] = &[
    row!(CloseParen),
    row!(Comma, Due::Argument, Due::MoreArguments),
];

// The rows of a block, behind others.
macro_rules! block {
    ($($first:expr),*) => {
        &[
            $($first,)*
            row!(CloseBrace),
            row!(Local, EQUALS, Due::Expression, SEMICOLON, Due::Block),
            row!(Global, EQUALS, Due::Expression, SEMICOLON, Due::Block),
            row!(Function, OPEN, Due::Arguments, SEMICOLON, Due::Block),
            row!(Entry, OPEN, Due::Arguments, SEMICOLON, Due::Block),
            row!(Operation, OPEN, Due::Arguments, SEMICOLON, Due::Block),
            row!(Return, Due::Expression, SEMICOLON, Due::Block),
            row!(If, OPEN, Due::Expression, CLOSE, BEGIN, Due::Block, ELSE, BEGIN, Due::Block, Due::Block),
            row!(Label, COLON, FOR, OPEN, SEMICOLON, SEMICOLON, CLOSE, BEGIN, Due::Block, Due::Block),
            row!(OpenBrace, Due::Block, END_LABEL, COLON, SEMICOLON, Due::Block),
            row!(Goto, Due::Target, SEMICOLON, Due::Block),
            row!(Catch, OPEN, LOCAL, COMMA, LOCAL, CLOSE, BEGIN, Due::Block, Due::Block),
            row!(Protect, BEGIN, Due::Block, BEGIN, Due::Block, Due::Block)
        ]
    };
}

const BLOCK: &[DueRow] = block!();

const BODY: &[DueRow] = block!(row!(Type, LOCAL, SEMICOLON, Due::Body));

const ITEMS: &[DueRow] = &[
    row!(Extern, TYPE, GLOBAL, SEMICOLON, Due::Items),
    row!(Type, Due::Named, Due::Items),
];

const NAMED: &[DueRow] = &[
    row!(Global, SEMICOLON),
    row!(Function, OPEN, Due::Params),
    row!(Entry, OPEN, Due::Params),
];

const PARAMS: &[DueRow] = &[
    row!(Void, CLOSE, Due::NoParams),
    row!(Type, Due::FirstParam),
];

const NO_PARAMS: &[DueRow] = &[row!(Semicolon), row!(OpenBrace, Due::Body)];

const FIRST_PARAM: &[DueRow] = &[
    row!(CloseParen, SEMICOLON),
    row!(Comma, TYPE, Due::MoreTypes, SEMICOLON),
    row!(Local, Due::MoreParams, BEGIN, Due::Body),
];

const MORE_TYPES: &[DueRow] = &[row!(CloseParen), row!(Comma, TYPE, Due::MoreTypes)];

const MORE_PARAMS: &[DueRow] = &[row!(CloseParen), row!(Comma, TYPE, LOCAL, Due::MoreParams)];

fn rows(due: Due) -> &'static [DueRow]
    ensures { map row_of result.now ≡ rows due }
{
    match due {
        Due::Token(_) => &[],
        Due::Target => TARGET,
        Due::Expression => EXPRESSION,
        Due::Argument => ARGUMENT,
        Due::Arguments => ARGUMENTS,
        Due::MoreArguments => MORE_ARGUMENTS,
        Due::Block => BLOCK,
        Due::Body => BODY,
        Due::Items => ITEMS,
        Due::Named => NAMED,
        Due::Params => PARAMS,
        Due::NoParams => NO_PARAMS,
        Due::FirstParam => FIRST_PARAM,
        Due::MoreTypes => MORE_TYPES,
        Due::MoreParams => MORE_PARAMS,
    }
}

fn behind(rows: &'static [DueRow], kind: Kind) -> Option<&'static [Due]>
    ensures { option_copied result ≡ behind (map row_of rows.now) kind }
{
    for row in rows {
        if row.kind.is(kind) {
            return Some(row.more);
        }
    }
    None
}

fn next(due: Due, kind: Kind) -> Option<&'static [Due]>
    ensures { option_copied result ≡ next due kind }
{
    if let Due::Token(one) = due {
        return if one.is(kind) { Some(&[]) } else { None };
    }
    behind(rows(due), kind)
}

fn push_all(dues: &mut Stack<Due>, more: &[Due]) -> Result<(), OutOfMemory>
    ensures { OnOk result (dues.new ≡ more.now ++ dues.old) }
{
    for i in (0..more.len()).rev() {
        dues.push(more[i])?;
    }
    Ok(())
}

/// Goes over a token of a kind; false where none can stand here.
pub fn advance(dues: &mut Stack<Due>, kind: Kind) -> Result<bool, OutOfMemory>
    ensures { IfOk result (λ went. MatchBool went (advance dues.old kind ≡ Some dues.new) (advance dues.old kind ≡ None)) }
{
    let Some(due) = dues.pop() else {
        return Ok(false);
    };
    let Some(more) = next(due, kind) else {
        return Ok(false);
    };
    push_all(dues, more)?;
    Ok(true)
}
