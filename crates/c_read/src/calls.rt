// Arguments, calls and expressions.
ghost use Rattle.std.specs.Prelude.{◌≡◌, ◌∷◌, [], IfOk, None};
ghost use Rattle.c_tree.specs.Lexical.{Word, Mark};
ghost use Rattle.c_tree.specs.Spelling.{argument_tokens_of, argument_tokens, NamedArgument, NamedArguments};
ghost use Rattle.c_read.specs.Sequences.{Took, onto, all, after_mark, word_first};
ghost use Rattle.c_read.specs.Yields.{YieldsArgument, YieldsNext, YieldsArguments, YieldsCall, YieldsExpr};
ghost use Rattle.c_read.specs.Productions.{entry, argument, next_argument, arguments, call_of, expression};

use crate::lex::unquote;
use crate::skips::{entry_name, skip, word};
use crate::stop::Stop;
use crate::token::Part;
use crate::tokens::Tokens;
use crate::words::{atom, callee};
use c_tree::{CArg, CCall, CExpr};
use c_words::CWord;
use scheme_data::List;
use std::alloc::Global;

fn read_entry(alloc: Global, tokens: &mut Tokens<'_>, mark: u8) -> Result<CArg, Stop>
    ensures read { Took (entry mark tokens.old) result tokens.new }
    ensures spelled { IfOk result (λ x. YieldsArgument (Mark mark ∷ tokens.old) x tokens.new) }
{
    if mark != b'&' {
        return Err(Stop::Wrong);
    }
    let name = entry_name(alloc, tokens)?;
    Ok(CArg::Entry(name))
}

// Where no word is next.
fn read_other_argument(alloc: Global, tokens: &mut Tokens<'_>) -> Result<CArg, Stop>
    requires { word_first tokens.old ≡ None }
    ensures read { Took (argument tokens.old) result tokens.new }
    ensures spelled { IfOk result (λ x. YieldsArgument tokens.old x tokens.new) }
{
    let Some(token) = tokens.pop() else {
        return Err(Stop::Wrong);
    };
    match token.into_part() {
        Part::Str(text) => {
            let bytes = unquote(alloc, text)?;
            Ok(CArg::Str(bytes))
        }
        Part::Mark(mark) => read_entry(alloc, tokens, mark),
        Part::Word(_) => unreachable!(),
        Part::Bad => Err(Stop::Wrong),
    }
}

fn read_argument(alloc: Global, tokens: &mut Tokens<'_>) -> Result<CArg, Stop>
    ensures read { Took (argument tokens.old) result tokens.new }
    ensures spelled { IfOk result (λ x. YieldsArgument tokens.old x tokens.new) }
{
    if let Some(word) = tokens.take_word() {
        let atom = atom(alloc, &word)?;
        return Ok(CArg::Atom(atom));
    }
    read_other_argument(alloc, tokens)
}

#[tactic(auto, unfolding(crate::specs::Productions::next_argument))]
fn read_next_argument(alloc: Global, tokens: &mut Tokens<'_>) -> Result<CArg, Stop>
    ensures read { Took (next_argument tokens.old) result tokens.new }
    ensures spelled { IfOk result (λ x. YieldsNext tokens.old x tokens.new) }
{
    skip(tokens, b',')?;
    read_argument(alloc, tokens)
}

fn read_more_arguments(
    alloc: Global,
    tokens: &mut Tokens<'_>,
    first: CArg,
) -> Result<List<CArg>, Stop>
    ensures read { Took (onto (first ∷ []) (all next_argument (after_mark 41) tokens.old)) result tokens.new }
    ensures spelled { IfOk result (λ args. (argument_tokens_of first tokens.old ≡ argument_tokens args (Mark 41 ∷ tokens.new)) × (NamedArgument first → NamedArguments args)) }
{
    let mut args = List::new(alloc);
    args.push(first)?;
    while !tokens.take_mark(b')') {
        let arg = read_next_argument(alloc, tokens)?;
        args.push(arg)?;
    }
    Ok(args)
}

#[tactic(auto, unfolding(crate::specs::Productions::arguments))]
fn read_arguments(alloc: Global, tokens: &mut Tokens<'_>) -> Result<List<CArg>, Stop>
    ensures read { Took (arguments tokens.old) result tokens.new }
    ensures spelled { IfOk result (λ x. YieldsArguments tokens.old x (Mark 41 ∷ tokens.new)) }
{
    if tokens.take_mark(b')') {
        return Ok(List::new(alloc));
    }
    let first = read_argument(alloc, tokens)?;
    read_more_arguments(alloc, tokens, first)
}

/// The rest of a call, to its closing parenthesis.
pub fn read_call(alloc: Global, tokens: &mut Tokens<'_>, word: &CWord<'_>) -> Result<CCall, Stop>
    ensures read { Took (call_of word.now tokens.old) result tokens.new }
    ensures spelled { IfOk result (λ x. YieldsCall (Word word.now ∷ Mark 40 ∷ tokens.old) x tokens.new) }
{
    let callee = callee(alloc, word)?;
    let args = read_arguments(alloc, tokens)?;
    Ok(CCall { callee, args })
}

/// An expression.
#[tactic(auto, unfolding(crate::specs::Productions::expression))]
pub fn read_expression(alloc: Global, tokens: &mut Tokens<'_>) -> Result<CExpr, Stop>
    ensures read { Took (expression tokens.old) result tokens.new }
    ensures spelled { IfOk result (λ x. YieldsExpr tokens.old x tokens.new) }
{
    let word = word(tokens)?;
    if tokens.take_mark(b'(') {
        let call = read_call(alloc, tokens, &word)?;
        return Ok(CExpr::Call(call));
    }
    let atom = atom(alloc, &word)?;
    Ok(CExpr::Atom(atom))
}
