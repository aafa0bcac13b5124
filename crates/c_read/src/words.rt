// What a word says, by what it is.
ghost use Rattle.std.specs.Prelude.{◌≡◌, ◌||◌, IsTrue, IfOk, codes};
ghost use Rattle.std.specs.Option.{IfSome};
ghost use Rattle.scheme_data.specs.Names.{is_same};
ghost use Rattle.c_tree.specs.Names.{is_local_name, is_label_name, is_end_label_name, is_global_name, is_entry_name, is_function_name, is_variable_name, is_target_name};
ghost use Rattle.c_tree.specs.Spelling.{type_text, atom_text, callee_text, NamedAtom, NamedCallee};
ghost use Rattle.c_read.specs.Words.{type_in, type_of, atom_in, atom_of, callee_in, callee_of};
ghost use Rattle.c_read.specs.Kinds.{same_kind, kind_of};
ghost use Rattle.c_read.specs.Sequences.{Finds};

use crate::kinds::{Kind, word_kind};
use crate::stop::Stop;
use c_tree::{CAtom, CTy, Callee};
use c_words::{CWord, WordKind};
use scheme_data::Text;
use std::alloc::Global;

fn is_either(word: &CWord<'_>, first: Kind, second: Kind) -> bool
    ensures { result ≡ (same_kind (kind_of word.now) first || same_kind (kind_of word.now) second) }
{
    let kind = word_kind(word);
    kind.is(first) || kind.is(second)
}

// Words of the language ---------------------------------------------------------------------

pub fn says_return(word: &CWord<'_>) -> bool
    ensures value { result ≡ is_same word.now (codes "return") }
    ensures same { IsTrue result → word.now ≡ codes "return" }
{
    word_kind(word).is(Kind::Return)
}

pub fn says_if(word: &CWord<'_>) -> bool
    ensures value { result ≡ is_same word.now (codes "if") }
    ensures same { IsTrue result → word.now ≡ codes "if" }
{
    word_kind(word).is(Kind::If)
}

pub fn says_else(word: &CWord<'_>) -> bool
    ensures value { result ≡ is_same word.now (codes "else") }
    ensures same { IsTrue result → word.now ≡ codes "else" }
{
    word_kind(word).is(Kind::Else)
}

pub fn says_for(word: &CWord<'_>) -> bool
    ensures value { result ≡ is_same word.now (codes "for") }
    ensures same { IsTrue result → word.now ≡ codes "for" }
{
    word_kind(word).is(Kind::For)
}

pub fn says_goto(word: &CWord<'_>) -> bool
    ensures value { result ≡ is_same word.now (codes "goto") }
    ensures same { IsTrue result → word.now ≡ codes "goto" }
{
    word_kind(word).is(Kind::Goto)
}

pub fn says_catch(word: &CWord<'_>) -> bool
    ensures value { result ≡ is_same word.now (codes "BGL_CATCH") }
    ensures same { IsTrue result → word.now ≡ codes "BGL_CATCH" }
{
    word_kind(word).is(Kind::Catch)
}

pub fn says_protect(word: &CWord<'_>) -> bool
    ensures value { result ≡ is_same word.now (codes "BGL_PROTECT") }
    ensures same { IsTrue result → word.now ≡ codes "BGL_PROTECT" }
{
    word_kind(word).is(Kind::Protect)
}

pub fn says_extern(word: &CWord<'_>) -> bool
    ensures value { result ≡ is_same word.now (codes "extern") }
    ensures same { IsTrue result → word.now ≡ codes "extern" }
{
    word_kind(word).is(Kind::Extern)
}

pub fn says_void(word: &CWord<'_>) -> bool
    ensures value { result ≡ is_same word.now (codes "void") }
    ensures same { IsTrue result → word.now ≡ codes "void" }
{
    word_kind(word).is(Kind::Void)
}

fn type_in(kind: WordKind) -> Option<CTy>
    ensures { result ≡ type_in kind }
{
    match kind {
        WordKind::Type(ty) => Some(ty),
        _ => None,
    }
}

/// The type of a word.
#[tactic(auto, using(crate::proofs::Classes::type_back), unfolding(crate::specs::Words::type_of))]
pub fn type_by_name(word: &CWord<'_>) -> Option<CTy>
    ensures value { result ≡ type_of word.now }
    ensures spelled { IfSome result (λ t. word.now ≡ type_text t) }
{
    type_in(word.kind())
}

// Names -------------------------------------------------------------------------------------

#[tactic(auto, using(crate::proofs::Says::names_local))]
pub fn names_local(word: &CWord<'_>) -> bool
    ensures { result ≡ is_local_name word.now }
{
    word_kind(word).is(Kind::Local)
}

#[tactic(auto, using(crate::proofs::Says::names_label))]
pub fn names_label(word: &CWord<'_>) -> bool
    ensures { result ≡ is_label_name word.now }
{
    word_kind(word).is(Kind::Label)
}

#[tactic(auto, using(crate::proofs::Says::names_end_label))]
pub fn names_end_label(word: &CWord<'_>) -> bool
    ensures { result ≡ is_end_label_name word.now }
{
    word_kind(word).is(Kind::EndLabel)
}

#[tactic(auto, using(crate::proofs::Says::names_global))]
pub fn names_global(word: &CWord<'_>) -> bool
    ensures { result ≡ is_global_name word.now }
{
    word_kind(word).is(Kind::Global)
}

#[tactic(auto, using(crate::proofs::Says::names_entry))]
pub fn names_entry(word: &CWord<'_>) -> bool
    ensures { result ≡ is_entry_name word.now }
{
    word_kind(word).is(Kind::Entry)
}

#[tactic(auto, using(crate::proofs::Says::names_function))]
pub fn names_function(word: &CWord<'_>) -> bool
    ensures { result ≡ is_function_name word.now }
{
    is_either(word, Kind::Entry, Kind::Function)
}

#[tactic(auto, using(crate::proofs::Says::names_variable))]
pub fn names_variable(word: &CWord<'_>) -> bool
    ensures { result ≡ is_variable_name word.now }
{
    is_either(word, Kind::Local, Kind::Global)
}

#[tactic(auto, using(crate::proofs::Says::names_target))]
pub fn names_target(word: &CWord<'_>) -> bool
    ensures { result ≡ is_target_name word.now }
{
    is_either(word, Kind::Label, Kind::EndLabel)
}

// Atoms and calls ---------------------------------------------------------------------------

fn atom_in(alloc: Global, word: &CWord<'_>, kind: WordKind) -> Result<CAtom, Stop>
    ensures { Finds (atom_in word.now kind) result }
{
    match kind {
        WordKind::Local | WordKind::Global => {
            let name = Text::from_bytes(alloc, word.bytes())?;
            Ok(CAtom::Name(name))
        }
        WordKind::Symbol => {
            let name = Text::from_bytes(alloc, word.bytes())?;
            Ok(CAtom::Sym(name))
        }
        WordKind::Number(n) => Ok(CAtom::Int(n)),
        WordKind::False => Ok(CAtom::False),
        WordKind::True => Ok(CAtom::True),
        WordKind::Nil => Ok(CAtom::Nil),
        WordKind::Unspec => Ok(CAtom::Unspec),
        WordKind::Eof => Ok(CAtom::Eof),
        _ => Err(Stop::Wrong),
    }
}

/// The atom of a word.
#[tactic(auto, unfolding(crate::specs::Words::atom_of))]
pub fn atom(alloc: Global, word: &CWord<'_>) -> Result<CAtom, Stop>
    ensures value { Finds (atom_of word.now) result }
    ensures spelled { IfOk result (λ a. (word.now ≡ atom_text a) × NamedAtom a) }
{
    atom_in(alloc, word, word.kind())
}

fn callee_in(alloc: Global, word: &CWord<'_>, kind: WordKind) -> Result<Callee, Stop>
    ensures { Finds (callee_in word.now kind) result }
{
    match kind {
        WordKind::Entry | WordKind::Function => {
            let name = Text::from_bytes(alloc, word.bytes())?;
            Ok(Callee::Fun(name))
        }
        WordKind::Operation(op) => Ok(Callee::Op(op)),
        _ => Err(Stop::Wrong),
    }
}

/// What a word calls.
#[tactic(auto, unfolding(crate::specs::Words::callee_of))]
pub fn callee(alloc: Global, word: &CWord<'_>) -> Result<Callee, Stop>
    ensures value { Finds (callee_of word.now) result }
    ensures spelled { IfOk result (λ c. (word.now ≡ callee_text c) × NamedCallee c) }
{
    callee_in(alloc, word, word.kind())
}
