// Statements, piece by piece.
ghost use Rattle.std.specs.Prelude.{◌≡◌, ◌∷◌, Some, MatchBool, IfOk, IsTrue, OnOk, codes};
ghost use Rattle.c_tree.specs.Lexical.{Word, Mark};
ghost use Rattle.c_tree.specs.Names.{is_local_name};
ghost use Rattle.c_read.specs.Yields.{YieldsPiece, YieldsPieces, YieldsBody, laid_code, head_tokens};
ghost use Rattle.c_read.specs.Sequences.{front, Took, TookAs, Skipped, on_rest, after_mark, named};
ghost use Rattle.c_read.specs.declared.bodies.Open.TheVariants as Open;
ghost use Rattle.c_read.specs.Productions.{
  returned,
  assigned,
  called,
  condition,
  after_head,
  looped,
  named_statement,
  jump,
  catching,
  protecting,
  rarer_statement,
  statement,
  closing_of,
  next_piece,
  but_one,
  opens_after,
  after_body,
  all_pieces,
  body,
};

use crate::calls::{read_call, read_expression};
use crate::skips::{end_label_name, local_name, skip, skip_else, skip_for, target_name, word};
use crate::stop::Stop;
use crate::tokens::Tokens;
use crate::words::{
    names_label, names_variable, says_catch, says_goto, says_if, says_protect, says_return,
};
use c_tree::{Layout, Piece, lay_out};
use c_words::CWord;
use scheme_data::{List, OutOfMemory, Stack, Text};
use std::alloc::Global;

/// A block that is open, by what its closing brace goes on with: nothing, `else {`, a label, or `{`.
#[derive(Clone, Copy, Debug, PartialEq, Eq)]
pub enum Open {
    Plain,
    InIf,
    Labelled,
    Protected,
}

// A piece, with the `;` behind it.
fn ended(tokens: &mut Tokens<'_>, piece: Piece) -> Result<Piece, Stop>
    ensures read { Took (on_rest (after_mark 59 tokens.old) (λ left. Some (piece, left))) result tokens.new }
    ensures spelled { IfOk result (λ x. (x ≡ piece) × (tokens.old ≡ Mark 59 ∷ tokens.new)) }
{
    skip(tokens, b';').and(Ok(piece))
}

// Takes two marks.
fn skip_pair(tokens: &mut Tokens<'_>, first: u8, second: u8) -> Result<(), Stop>
    ensures read { Skipped (on_rest (after_mark first tokens.old) (after_mark second)) result tokens.new }
    ensures spelled { OnOk result (tokens.old ≡ Mark first ∷ Mark second ∷ tokens.new) }
{
    skip(tokens, first)?;
    skip(tokens, second)
}

// A piece, with the `) {` behind it.
fn opened(tokens: &mut Tokens<'_>, piece: Piece) -> Result<Piece, Stop>
    ensures read { Took (on_rest (on_rest (after_mark 41 tokens.old) (after_mark 123)) (λ left. Some (piece, left))) result tokens.new }
    ensures spelled { IfOk result (λ x. (x ≡ piece) × (tokens.old ≡ Mark 41 ∷ Mark 123 ∷ tokens.new)) }
{
    skip_pair(tokens, b')', b'{').and(Ok(piece))
}

fn read_returned(alloc: Global, tokens: &mut Tokens<'_>) -> Result<Piece, Stop>
    ensures read { Took (returned tokens.old) result tokens.new }
    ensures spelled { IfOk result (λ x. YieldsPiece (Word (codes "return") ∷ tokens.old) x tokens.new) }
{
    let value = read_expression(alloc, tokens)?;
    ended(tokens, Piece::Return(value))
}

#[tactic(auto, unfolding(crate::specs::Productions::condition))]
fn read_condition(alloc: Global, tokens: &mut Tokens<'_>) -> Result<Piece, Stop>
    ensures read { Took (condition tokens.old) result tokens.new }
    ensures spelled { IfOk result (λ x. YieldsPiece (Word (codes "if") ∷ tokens.old) x tokens.new) }
{
    skip(tokens, b'(')?;
    let value = read_expression(alloc, tokens)?;
    opened(tokens, Piece::If(value))
}

fn read_assigned(alloc: Global, tokens: &mut Tokens<'_>, word: &CWord<'_>) -> Result<Piece, Stop>
    ensures read { Took (assigned word.now tokens.old) result tokens.new }
    ensures spelled { IfOk result (λ x. YieldsPiece (Word word.now ∷ Mark 61 ∷ tokens.old) x tokens.new) }
{
    if !names_variable(word) {
        return Err(Stop::Wrong);
    }
    let name = Text::from_bytes(alloc, word.bytes())?;
    let value = read_expression(alloc, tokens)?;
    ended(tokens, Piece::Assign(name, value))
}

#[tactic(auto, unfolding(crate::specs::Productions::after_head))]
fn skip_head(tokens: &mut Tokens<'_>) -> Result<(), Stop>
    ensures read { Skipped (after_head tokens.old) result tokens.new }
    ensures spelled { OnOk result (tokens.old ≡ head_tokens tokens.new) }
{
    skip_for(tokens)?;
    skip_pair(tokens, b'(', b';')?;
    skip_pair(tokens, b';', b')')?;
    skip(tokens, b'{')
}

fn read_looped(alloc: Global, tokens: &mut Tokens<'_>, word: &CWord<'_>) -> Result<Piece, Stop>
    ensures read { Took (looped word.now tokens.old) result tokens.new }
    ensures spelled { IfOk result (λ x. YieldsPiece (Word word.now ∷ Mark 58 ∷ tokens.old) x tokens.new) }
{
    if !names_label(word) {
        return Err(Stop::Wrong);
    }
    skip_head(tokens)?;
    let name = Text::from_bytes(alloc, word.bytes())?;
    Ok(Piece::Loop(name))
}

fn read_called(alloc: Global, tokens: &mut Tokens<'_>, word: &CWord<'_>) -> Result<Piece, Stop>
    ensures read { Took (called word.now tokens.old) result tokens.new }
    ensures spelled { IfOk result (λ x. YieldsPiece (Word word.now ∷ tokens.old) x tokens.new) }
{
    skip(tokens, b'(')?;
    let call = read_call(alloc, tokens, word)?;
    ended(tokens, Piece::Call(call))
}

#[tactic(auto, unfolding(crate::specs::Productions::named_statement))]
fn read_named(alloc: Global, tokens: &mut Tokens<'_>, word: &CWord<'_>) -> Result<Piece, Stop>
    ensures read { Took (named_statement word.now tokens.old) result tokens.new }
    ensures spelled { IfOk result (λ x. YieldsPiece (Word word.now ∷ tokens.old) x tokens.new) }
{
    if tokens.take_mark(b'=') {
        return read_assigned(alloc, tokens, word);
    }
    if tokens.take_mark(b':') {
        return read_looped(alloc, tokens, word);
    }
    read_called(alloc, tokens, word)
}

#[tactic(auto, unfolding(crate::specs::Productions::jump))]
fn read_jump(alloc: Global, tokens: &mut Tokens<'_>) -> Result<Piece, Stop>
    ensures read { Took (jump tokens.old) result tokens.new }
    ensures spelled { IfOk result (λ x. YieldsPiece (Word (codes "goto") ∷ tokens.old) x tokens.new) }
{
    let label = target_name(alloc, tokens)?;
    ended(tokens, Piece::Goto(label))
}

// The second name of a block with an exit.
fn read_carried(alloc: Global, tokens: &mut Tokens<'_>) -> Result<Text, Stop>
    ensures read { Took (on_rest (after_mark 44 tokens.old) (named is_local_name)) result tokens.new }
    ensures spelled { IfOk result (λ w. (tokens.old ≡ Mark 44 ∷ Word w ∷ tokens.new) × IsTrue (is_local_name w)) }
{
    skip(tokens, b',')?;
    local_name(alloc, tokens)
}

#[tactic(auto, unfolding(crate::specs::Productions::catching))]
fn read_catching(alloc: Global, tokens: &mut Tokens<'_>) -> Result<Piece, Stop>
    ensures read { Took (catching tokens.old) result tokens.new }
    ensures spelled { IfOk result (λ x. YieldsPiece (Word (codes "BGL_CATCH") ∷ tokens.old) x tokens.new) }
{
    skip(tokens, b'(')?;
    let exit = local_name(alloc, tokens)?;
    let carried = read_carried(alloc, tokens)?;
    opened(tokens, Piece::Catch(exit, carried))
}

fn read_protecting(tokens: &mut Tokens<'_>) -> Result<Piece, Stop>
    ensures read { Took (protecting tokens.old) result tokens.new }
    ensures spelled { IfOk result (λ x. YieldsPiece (Word (codes "BGL_PROTECT") ∷ tokens.old) x tokens.new) }
{
    skip(tokens, b'{')?;
    Ok(Piece::Protect)
}

fn read_rarer(alloc: Global, tokens: &mut Tokens<'_>, word: &CWord<'_>) -> Result<Piece, Stop>
    ensures read { Took (rarer_statement word.now tokens.old) result tokens.new }
    ensures spelled { IfOk result (λ x. YieldsPiece (Word word.now ∷ tokens.old) x tokens.new) }
{
    if says_goto(word) {
        return read_jump(alloc, tokens);
    }
    if says_catch(word) {
        return read_catching(alloc, tokens);
    }
    if says_protect(word) {
        return read_protecting(tokens);
    }
    read_named(alloc, tokens, word)
}

#[tactic(auto, unfolding(crate::specs::Productions::statement))]
fn read_statement(alloc: Global, tokens: &mut Tokens<'_>) -> Result<Piece, Stop>
    ensures read { Took (statement tokens.old) result tokens.new }
    ensures spelled { IfOk result (λ x. YieldsPiece tokens.old x tokens.new) }
{
    let word = word(tokens)?;
    if says_return(&word) {
        return read_returned(alloc, tokens);
    }
    if says_if(&word) {
        return read_condition(alloc, tokens);
    }
    read_rarer(alloc, tokens, &word)
}

#[tactic(auto, unfolding(crate::specs::Productions::closing_of))]
fn read_else(tokens: &mut Tokens<'_>) -> Result<Piece, Stop>
    ensures read { Took (closing_of Open.InIf tokens.old) result tokens.new }
    ensures spelled { IfOk result (λ x. YieldsPiece (Mark 125 ∷ tokens.old) x tokens.new) }
{
    skip_else(tokens)?;
    skip(tokens, b'{')?;
    Ok(Piece::Else)
}

#[tactic(auto, unfolding(crate::specs::Productions::closing_of))]
fn read_ended(alloc: Global, tokens: &mut Tokens<'_>) -> Result<Piece, Stop>
    ensures read { Took (closing_of Open.Labelled tokens.old) result tokens.new }
    ensures spelled { IfOk result (λ x. YieldsPiece (Mark 125 ∷ tokens.old) x tokens.new) }
{
    let label = end_label_name(alloc, tokens)?;
    skip_pair(tokens, b':', b';').and(Ok(Piece::Ended(label)))
}

#[tactic(auto, unfolding(crate::specs::Productions::closing_of))]
fn read_cleanup(tokens: &mut Tokens<'_>) -> Result<Piece, Stop>
    ensures read { Took (closing_of Open.Protected tokens.old) result tokens.new }
    ensures spelled { IfOk result (λ x. YieldsPiece (Mark 125 ∷ tokens.old) x tokens.new) }
{
    skip(tokens, b'{')?;
    Ok(Piece::Cleanup)
}

// What a closing brace goes on with is decided by the block that it closes.
#[tactic(auto, unfolding(crate::specs::Productions::closing_of))]
fn read_closing(alloc: Global, tokens: &mut Tokens<'_>, block: Open) -> Result<Piece, Stop>
    ensures read { Took (closing_of block tokens.old) result tokens.new }
    ensures spelled { IfOk result (λ x. YieldsPiece (Mark 125 ∷ tokens.old) x tokens.new) }
{
    match block {
        Open::Plain => Ok(Piece::End),
        Open::InIf => read_else(tokens),
        Open::Labelled => read_ended(alloc, tokens),
        Open::Protected => read_cleanup(tokens),
    }
}

#[tactic(auto, unfolding(crate::specs::Productions::next_piece))]
fn read_piece(alloc: Global, opens: &Stack<Open>, tokens: &mut Tokens<'_>) -> Result<Piece, Stop>
    ensures read { Took (next_piece opens.now tokens.old) result tokens.new }
    ensures spelled { IfOk result (λ x. YieldsPiece tokens.old x tokens.new) }
{
    if tokens.take_mark(b'}') {
        return match innermost(opens) {
            Some(block) => read_closing(alloc, tokens, block),
            None => Err(Stop::Wrong),
        };
    }
    if tokens.take_mark(b'{') {
        return Ok(Piece::Begin);
    }
    read_statement(alloc, tokens)
}

fn innermost(opens: &Stack<Open>) -> Option<Open>
    ensures { result ≡ front opens.now }
{
    opens.top().copied()
}

fn leave(opens: &mut Stack<Open>)
    ensures { opens.new ≡ but_one opens.old }
{
    let _ = opens.pop();
}

fn leave_for_another(opens: &mut Stack<Open>) -> Result<(), OutOfMemory>
    ensures { OnOk result (opens.new ≡ Open.Plain ∷ but_one opens.old) }
{
    leave(opens);
    opens.push(Open::Plain)
}

// Which blocks are open after a piece. Where none is, no piece is an end: the brace there is the function's own.
fn pass(opens: &mut Stack<Open>, piece: &Piece) -> Result<(), OutOfMemory>
    ensures { OnOk result (opens.new ≡ opens_after piece.now opens.old) }
{
    match piece {
        Piece::Assign(_, _) | Piece::Call(_) | Piece::Return(_) | Piece::Goto(_) => Ok(()),
        Piece::If(_) => opens.push(Open::InIf),
        Piece::Loop(_) | Piece::Catch(_, _) => opens.push(Open::Plain),
        Piece::Begin => opens.push(Open::Labelled),
        Piece::Protect => opens.push(Open::Protected),
        Piece::Else | Piece::Cleanup => leave_for_another(opens),
        Piece::Ended(_) | Piece::End => {
            leave(opens);
            Ok(())
        }
    }
}

// Takes the closing brace of the function, if it is next.
fn took_end(tokens: &mut Tokens<'_>, opens: &Stack<Open>) -> bool
    ensures { MatchBool result ((after_body opens.now tokens.old ≡ Some tokens.new) × (tokens.old ≡ Mark 125 ∷ tokens.new)) ((after_body opens.now tokens.old ≡ None) × (tokens.new ≡ tokens.old)) }
{
    if !opens.is_empty() {
        return false;
    }
    tokens.take_mark(b'}')
}

// Keeps which blocks are open; which piece belongs to which is for `lay_out` to find.
fn read_pieces(alloc: Global, tokens: &mut Tokens<'_>) -> Result<List<Piece>, Stop>
    ensures read { Took (all_pieces tokens.old) result tokens.new }
    ensures spelled { IfOk result (λ ps. YieldsPieces tokens.old ps (Mark 125 ∷ tokens.new)) }
{
    let mut pieces = List::new(alloc);
    let mut opens = Stack::new(alloc);
    while !took_end(tokens, &opens) {
        let piece = read_piece(alloc, &opens, tokens)?;
        let passed = pass(&mut opens, &piece);
        pieces.push(piece)?;
        passed?;
    }
    Ok(pieces)
}

/// The statements of a function, to its closing brace.
#[tactic(auto, unfolding(crate::specs::Productions::body))]
pub fn read_body(alloc: Global, tokens: &mut Tokens<'_>) -> Result<Layout, Stop>
    ensures read { TookAs laid_code (body tokens.old) result tokens.new }
    ensures spelled { IfOk result (λ l. YieldsBody tokens.old l tokens.new) }
{
    let pieces = read_pieces(alloc, tokens)?;
    match lay_out(alloc, pieces)? {
        Some(layout) => Ok(layout),
        None => Err(Stop::Wrong),
    }
}
