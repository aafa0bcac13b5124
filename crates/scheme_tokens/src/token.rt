use scheme_data::{Place, Text};

/// A datum that is one token.
#[derive(Debug, Drop)]
pub enum Atom {
    Int(i64),
    Chr(u8),
    Bool(bool),
    Unspec,
    Str(Text),
    Sym(Text),
}

/// What a token is. `Bad` is what is unfinished or stands in no data.
#[derive(Debug, Drop)]
pub enum Word {
    Open,
    OpenVector,
    Close,
    Quote,
    Dot,
    Atom(Atom),
    Bad,
}

/// A token and its place.
#[derive(Debug, Drop)]
pub struct Token {
    pub at: Place,
    pub word: Word,
}
