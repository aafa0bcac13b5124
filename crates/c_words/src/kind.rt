use c_tree::{CTy, Op};

/// What a word of a C text is. `Symbol` is the name of a symbol's atom.
#[derive(Clone, Copy)]
pub enum WordKind {
    Type(CTy),
    Void,
    Extern,
    Return,
    If,
    Else,
    For,
    Goto,
    Catch,
    Protect,
    False,
    True,
    Nil,
    Unspec,
    Eof,
    Local,
    Label,
    EndLabel,
    Symbol,
    Global,
    Entry,
    /// Of a module, its maker, its initialisation, or `main`; of no entry.
    Function,
    Number(i64),
    Operation(Op),
    Other,
}
