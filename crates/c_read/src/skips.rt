// Single tokens.
ghost use Rattle.std.specs.Prelude.{◌≡◌, List, ◌∷◌, Some, None, if◌then◌else◌, OnOk, IfOk, IsTrue, codes};
ghost use Rattle.std.specs.Option.{is_some};
ghost use Rattle.c_tree.specs.Lexical.{Token, Word, Mark};
ghost use Rattle.c_tree.specs.Spelling.{type_text};
ghost use Rattle.c_tree.specs.Names.{is_entry_name, is_global_name, is_local_name, is_end_label_name, is_target_name};
ghost use Rattle.c_read.specs.Sequences.{Took, Skipped, after_mark, after_text, word_first, named, first_word, is_first};
ghost use Rattle.c_read.specs.Words.{is_extern};
ghost use Rattle.c_read.specs.Productions.{is_type, any_word, is_void, type_first};

use crate::stop::Stop;
use crate::tokens::Tokens;
use crate::words::{
    names_end_label, names_entry, names_global, names_local, names_target, says_else, says_extern,
    says_for, says_void, type_by_name,
};
use c_tree::CTy;
use c_words::CWord;
use scheme_data::Text;
use std::alloc::Global;

/// Takes this mark.
pub fn skip(tokens: &mut Tokens<'_>, mark: u8) -> Result<(), Stop>
    ensures read { Skipped (after_mark mark tokens.old) result tokens.new }
    ensures spelled { OnOk result (tokens.old ≡ Mark mark ∷ tokens.new) }
{
    if tokens.take_mark(mark) {
        return Ok(());
    }
    Err(Stop::Wrong)
}

/// Takes a word.
pub fn word<'a>(tokens: &mut Tokens<'a>) -> Result<CWord<'a>, Stop>
    ensures read { Took (word_first tokens.old) result tokens.new }
    ensures spelled { IfOk result (λ w. tokens.old ≡ Word w ∷ tokens.new) }
{
    match tokens.take_word() {
        Some(word) => Ok(word),
        None => Err(Stop::Wrong),
    }
}

/// Takes the word `for`.
pub fn skip_for(tokens: &mut Tokens<'_>) -> Result<(), Stop>
    ensures read { Skipped (after_text (codes "for") tokens.old) result tokens.new }
    ensures spelled { OnOk result (tokens.old ≡ Word (codes "for") ∷ tokens.new) }
{
    let word = word(tokens)?;
    if says_for(&word) {
        return Ok(());
    }
    Err(Stop::Wrong)
}

/// Takes the word `else`.
pub fn skip_else(tokens: &mut Tokens<'_>) -> Result<(), Stop>
    ensures read { Skipped (after_text (codes "else") tokens.old) result tokens.new }
    ensures spelled { OnOk result (tokens.old ≡ Word (codes "else") ∷ tokens.new) }
{
    let word = word(tokens)?;
    if says_else(&word) {
        return Ok(());
    }
    Err(Stop::Wrong)
}

/// Takes the word `extern`.
pub fn skip_extern(tokens: &mut Tokens<'_>) -> Result<(), Stop>
    ensures read { Skipped (after_text (codes "extern") tokens.old) result tokens.new }
    ensures spelled { OnOk result (tokens.old ≡ Word (codes "extern") ∷ tokens.new) }
{
    let word = word(tokens)?;
    if says_extern(&word) {
        return Ok(());
    }
    Err(Stop::Wrong)
}

// The name that a word is, where it is allowed.
fn name_if(alloc: Global, word: &CWord<'_>, allowed: bool) -> Result<Text, Stop>
    ensures read { (rest : List Token) → Took (if allowed then Some (word.now, rest) else None) result rest }
    ensures spelled { IfOk result (λ w. (w ≡ word.now) × IsTrue allowed) }
{
    if !allowed {
        return Err(Stop::Wrong);
    }
    let name = Text::from_bytes(alloc, word.bytes())?;
    Ok(name)
}

pub fn local_name(alloc: Global, tokens: &mut Tokens<'_>) -> Result<Text, Stop>
    ensures read { Took (named is_local_name tokens.old) result tokens.new }
    ensures spelled { IfOk result (λ w. (tokens.old ≡ Word w ∷ tokens.new) × IsTrue (is_local_name w)) }
{
    let word = word(tokens)?;
    name_if(alloc, &word, names_local(&word))
}

pub fn global_name(alloc: Global, tokens: &mut Tokens<'_>) -> Result<Text, Stop>
    ensures read { Took (named is_global_name tokens.old) result tokens.new }
    ensures spelled { IfOk result (λ w. (tokens.old ≡ Word w ∷ tokens.new) × IsTrue (is_global_name w)) }
{
    let word = word(tokens)?;
    name_if(alloc, &word, names_global(&word))
}

pub fn entry_name(alloc: Global, tokens: &mut Tokens<'_>) -> Result<Text, Stop>
    ensures read { Took (named is_entry_name tokens.old) result tokens.new }
    ensures spelled { IfOk result (λ w. (tokens.old ≡ Word w ∷ tokens.new) × IsTrue (is_entry_name w)) }
{
    let word = word(tokens)?;
    name_if(alloc, &word, names_entry(&word))
}

pub fn end_label_name(alloc: Global, tokens: &mut Tokens<'_>) -> Result<Text, Stop>
    ensures read { Took (named is_end_label_name tokens.old) result tokens.new }
    ensures spelled { IfOk result (λ w. (tokens.old ≡ Word w ∷ tokens.new) × IsTrue (is_end_label_name w)) }
{
    let word = word(tokens)?;
    name_if(alloc, &word, names_end_label(&word))
}

pub fn target_name(alloc: Global, tokens: &mut Tokens<'_>) -> Result<Text, Stop>
    ensures read { Took (named is_target_name tokens.old) result tokens.new }
    ensures spelled { IfOk result (λ w. (tokens.old ≡ Word w ∷ tokens.new) × IsTrue (is_target_name w)) }
{
    let word = word(tokens)?;
    name_if(alloc, &word, names_target(&word))
}

#[tactic(auto, unfolding(crate::specs::Productions::type_first))]
pub fn type_word(tokens: &mut Tokens<'_>) -> Result<CTy, Stop>
    ensures read { Took (type_first tokens.old) result tokens.new }
    ensures spelled { IfOk result (λ t. tokens.old ≡ Word (type_text t) ∷ tokens.new) }
{
    let word = word(tokens)?;
    match type_by_name(&word) {
        Some(ty) => Ok(ty),
        None => Err(Stop::Wrong),
    }
}

pub fn is_word_next(tokens: &Tokens<'_>) -> bool
    ensures { result ≡ is_first any_word tokens.now }
{
    tokens.next_word().is_some()
}

pub fn is_type_next(tokens: &Tokens<'_>) -> bool
    ensures { result ≡ is_first is_type tokens.now }
{
    match tokens.next_word() {
        Some(word) => type_by_name(word).is_some(),
        None => false,
    }
}

pub fn is_extern_next(tokens: &Tokens<'_>) -> bool
    ensures { result ≡ is_first is_extern tokens.now }
{
    match tokens.next_word() {
        Some(word) => says_extern(word),
        None => false,
    }
}

pub fn is_void_next(tokens: &Tokens<'_>) -> bool
    ensures { result ≡ is_first is_void tokens.now }
{
    match tokens.next_word() {
        Some(word) => says_void(word),
        None => false,
    }
}
