// Which kind of token a word is.
ghost use Rattle.std.specs.Prelude.{◌≡◌};
ghost use Rattle.c_read.specs.Kinds.{code, same_kind, coarse, kind_of, mark_kind, token_kind};
ghost use Rattle.c_read.specs.Tokens.{token_of};

use crate::token::Part;
use c_words::{CWord, WordKind};

/// A kind of token, as fine as the grammar tells tokens apart. `Value` is an atom that names no variable.
#[derive(Clone, Copy, Debug, PartialEq, Eq)]
pub enum Kind {
    Type,
    Void,
    Extern,
    Return,
    If,
    Else,
    For,
    Goto,
    Catch,
    Protect,
    Local,
    Global,
    Value,
    Function,
    Entry,
    Operation,
    Label,
    EndLabel,
    And,
    OpenParen,
    CloseParen,
    Comma,
    Colon,
    Semicolon,
    Equals,
    OpenBrace,
    CloseBrace,
    Quoted,
    Other,
}

impl Kind {
    fn code(self) -> u8
        ensures { result ≡ code self }
    {
        self as u8
    }

    /// Whether it is this kind.
    pub fn is(self, other: Kind) -> bool
        ensures { result ≡ same_kind self other }
    {
        self.code() == other.code()
    }
}

fn coarse(kind: WordKind) -> Kind
    ensures { result ≡ coarse kind }
{
    match kind {
        WordKind::Type(_) => Kind::Type,
        WordKind::Void => Kind::Void,
        WordKind::Extern => Kind::Extern,
        WordKind::Return => Kind::Return,
        WordKind::If => Kind::If,
        WordKind::Else => Kind::Else,
        WordKind::For => Kind::For,
        WordKind::Goto => Kind::Goto,
        WordKind::Catch => Kind::Catch,
        WordKind::Protect => Kind::Protect,
        WordKind::Local => Kind::Local,
        WordKind::Label => Kind::Label,
        WordKind::EndLabel => Kind::EndLabel,
        WordKind::Global => Kind::Global,
        WordKind::Entry => Kind::Entry,
        WordKind::Function => Kind::Function,
        WordKind::Operation(_) => Kind::Operation,
        WordKind::False
        | WordKind::True
        | WordKind::Nil
        | WordKind::Unspec
        | WordKind::Eof
        | WordKind::Symbol
        | WordKind::Number(_) => Kind::Value,
        WordKind::Other => Kind::Other,
    }
}

/// The kind of a word.
#[tactic(auto, unfolding(crate::specs::Kinds::kind_of))]
pub fn word_kind(word: &CWord<'_>) -> Kind
    ensures { result ≡ kind_of word.now }
{
    coarse(word.kind())
}

fn mark_kind(mark: u8) -> Kind
    ensures { result ≡ mark_kind mark }
{
    match mark {
        b'&' => Kind::And,
        b'(' => Kind::OpenParen,
        b')' => Kind::CloseParen,
        b',' => Kind::Comma,
        b':' => Kind::Colon,
        b';' => Kind::Semicolon,
        b'=' => Kind::Equals,
        b'{' => Kind::OpenBrace,
        b'}' => Kind::CloseBrace,
        _ => Kind::Other,
    }
}

/// The kind of a token.
pub fn part_kind(part: &Part<'_>) -> Kind
    ensures { result ≡ token_kind (token_of part.now) }
{
    match part {
        Part::Word(word) => word_kind(word),
        Part::Mark(mark) => mark_kind(*mark),
        Part::Str(_) => Kind::Quoted,
        Part::Bad => Kind::Other,
    }
}
