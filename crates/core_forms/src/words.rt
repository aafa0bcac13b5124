ghost use Rattle.std.specs.Prelude.{◌≡◌};
ghost use Rattle.scheme_data.specs.Names.{is_same};
ghost use Rattle.core_forms.specs.Scope.{keyword};

/// The words of special forms.
#[derive(Clone, Copy, Debug, PartialEq, Eq)]
pub enum Keyword {
    Quote,
    Lambda,
    If,
    Set,
    Begin,
    Let,
    Letrec,
    BindExit,
    UnwindProtect,
    LetStar,
    Cond,
    Case,
    /// The clauses of a `case`, behind the name of its key.
    Clauses,
    And,
    Or,
    When,
    Unless,
    Do,
    Define,
    DefineInline,
    DefineSyntax,
}

/// Whether two names are the same.
pub fn is_same(a: &[u8], b: &[u8]) -> bool
    ensures { result ≡ is_same a.now b.now }
{
    a == b
}

/// The special form that a word means.
pub fn keyword_of(x: &[u8]) -> Option<Keyword>
    ensures { result ≡ keyword x.now }
{
    if is_same(x, b"quote") {
        Some(Keyword::Quote)
    } else if is_same(x, b"lambda") {
        Some(Keyword::Lambda)
    } else if is_same(x, b"if") {
        Some(Keyword::If)
    } else if is_same(x, b"set!") {
        Some(Keyword::Set)
    } else if is_same(x, b"begin") {
        Some(Keyword::Begin)
    } else if is_same(x, b"let") {
        Some(Keyword::Let)
    } else if is_same(x, b"letrec") {
        Some(Keyword::Letrec)
    } else if is_same(x, b"bind-exit") {
        Some(Keyword::BindExit)
    } else if is_same(x, b"unwind-protect") {
        Some(Keyword::UnwindProtect)
    } else if is_same(x, b"let*") {
        Some(Keyword::LetStar)
    } else if is_same(x, b"cond") {
        Some(Keyword::Cond)
    } else if is_same(x, b"case") {
        Some(Keyword::Case)
    } else if is_same(x, b"and") {
        Some(Keyword::And)
    } else if is_same(x, b"or") {
        Some(Keyword::Or)
    } else if is_same(x, b"when") {
        Some(Keyword::When)
    } else if is_same(x, b"unless") {
        Some(Keyword::Unless)
    } else if is_same(x, b"do") {
        Some(Keyword::Do)
    } else if is_same(x, b"case clauses") {
        Some(Keyword::Clauses)
    } else if is_same(x, b"define") {
        Some(Keyword::Define)
    } else if is_same(x, b"define-inline") {
        Some(Keyword::DefineInline)
    } else if is_same(x, b"define-syntax") {
        Some(Keyword::DefineSyntax)
    } else {
        None
    }
}
