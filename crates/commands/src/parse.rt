ghost use Rattle.std.specs.Prelude.{◌≡◌, IfOk, nat_eq, nat_le, nat_lt};
ghost use Rattle.std.specs.List.{list_all};
ghost use Rattle.commands.specs.Commands.{is_word, iface_of, compile_of, link_of, run_of, command_of, do_of, sample_of, request_with, request_of, is_comment, starts_hash, is_plain, is_graphic, is_prefix_name, is_short_word, parsed};

use crate::command::{Command, Request};
use crate::number::number_in;
use crate::words::{copy_all, words};
use scheme_data::{OutOfMemory, Text};
use std::alloc::Global;

const MOST_TURNS: u64 = 9223372036854775807;

const LONGEST_WORD: usize = 1048576;

fn is_named(word: &Text, name: &[u8]) -> bool
    ensures { result ≡ is_word word.now name.now }
{
    word.as_bytes() == name
}

fn iface_in(alloc: Global, words: &[Text]) -> Result<Option<Command>, OutOfMemory>
    ensures { IfOk result (λ c. c ≡ iface_of words.now) }
{
    match words {
        [source, out] => Ok(Some(Command::Iface(source.copy(alloc)?, out.copy(alloc)?))),
        _ => Ok(None),
    }
}

fn compile_in(alloc: Global, words: &[Text]) -> Result<Option<Command>, OutOfMemory>
    ensures { IfOk result (λ c. c ≡ compile_of words.now) }
{
    match words {
        [source, out, ifaces @ ..] => {
            Ok(Some(Command::Compile(
                source.copy(alloc)?,
                out.copy(alloc)?,
                copy_all(alloc, ifaces)?,
            )))
        }
        _ => Ok(None),
    }
}

fn link_in(alloc: Global, words: &[Text]) -> Result<Option<Command>, OutOfMemory>
    ensures { IfOk result (λ c. c ≡ link_of words.now) }
{
    match words {
        [out, objects @ ..] => {
            if objects.is_empty() {
                return Ok(None);
            }
            Ok(Some(Command::Link(out.copy(alloc)?, copy_all(alloc, objects)?)))
        }
        [] => Ok(None),
    }
}

fn run_in(alloc: Global, words: &[Text]) -> Result<Option<Command>, OutOfMemory>
    ensures { IfOk result (λ c. c ≡ run_of words.now) }
{
    match words {
        [program, turns, args @ ..] => match number_in(turns.as_bytes(), MOST_TURNS) {
            Some(count) => {
                Ok(Some(Command::Run(program.copy(alloc)?, count, copy_all(alloc, args)?)))
            }
            None => Ok(None),
        },
        _ => Ok(None),
    }
}

#[tactic(auto, unfolding(crate::specs::Commands::command_of))]
fn command_in(alloc: Global, words: &[Text]) -> Result<Option<Command>, OutOfMemory>
    ensures { IfOk result (λ c. c ≡ command_of words.now) }
{
    let [first, rest @ ..] = words else {
        return Ok(None);
    };
    if is_named(first, b"iface") {
        return iface_in(alloc, rest);
    }
    if is_named(first, b"compile") {
        return compile_in(alloc, rest);
    }
    if is_named(first, b"link") {
        return link_in(alloc, rest);
    }
    if is_named(first, b"run") {
        return run_in(alloc, rest);
    }
    Ok(None)
}

fn has_graphic_only(name: &[u8]) -> bool
    ensures { result ≡ list_all is_graphic name.now }
{
    name.iter().all(|b| b'!' <= *b && *b <= b'~')
}

fn is_name(word: &Text) -> bool
    ensures { result ≡ is_prefix_name word.now }
{
    let bytes = word.as_bytes();
    if bytes.is_empty() {
        return false;
    }
    if bytes.len() > 255 {
        return false;
    }
    has_graphic_only(bytes)
}

fn sample_in(alloc: Global, words: &[Text]) -> Result<Option<Request>, OutOfMemory>
    ensures { IfOk result (λ r. r ≡ sample_of words.now) }
{
    let [seed, modules, functions, out] = words else {
        return Ok(None);
    };
    let Some(seed) = number_in(seed.as_bytes(), 2147483647) else {
        return Ok(None);
    };
    let Some(modules) = number_in(modules.as_bytes(), 199) else {
        return Ok(None);
    };
    let Some(functions) = number_in(functions.as_bytes(), 200) else {
        return Ok(None);
    };
    if modules == 0 || functions == 0 || !is_name(out) {
        return Ok(None);
    }
    Ok(Some(Request::Sample(
        seed as u32,
        modules as u32,
        functions as u32,
        out.copy(alloc)?,
    )))
}

fn do_in(alloc: Global, words: &[Text]) -> Result<Option<Request>, OutOfMemory>
    ensures { IfOk result (λ r. r ≡ do_of words.now) }
{
    match words {
        [script] => Ok(Some(Request::Do(script.copy(alloc)?))),
        _ => Ok(None),
    }
}

fn request_of_short(alloc: Global, words: &[Text]) -> Result<Option<Request>, OutOfMemory>
    ensures { IfOk result (λ r. r ≡ request_with words.now) }
{
    let [first, rest @ ..] = words else {
        return Ok(None);
    };
    if is_named(first, b"do") {
        return do_in(alloc, rest);
    }
    if is_named(first, b"sample") {
        return sample_in(alloc, rest);
    }
    match command_in(alloc, words)? {
        Some(command) => Ok(Some(Request::Line(command))),
        None => Ok(None),
    }
}

fn are_short(words: &[Text]) -> bool
    ensures { result ≡ list_all is_short_word words.now }
{
    words
        .iter()
        .all(|word| word.as_bytes().len() <= LONGEST_WORD)
}

/// What the words of the program ask for; none exactly where they are no command.
#[tactic(auto, unfolding(crate::specs::Commands::request_of))]
pub fn request_in(alloc: Global, words: &[Text]) -> Result<Option<Request>, OutOfMemory>
    ensures { IfOk result (λ r. r ≡ request_of words.now) }
{
    if !are_short(words) {
        return Ok(None);
    }
    request_of_short(alloc, words)
}

fn has_spaces_only(line: &[u8]) -> bool
    ensures { result ≡ list_all (λ x. nat_eq x 32) line.now }
{
    line.iter().all(|b| *b == b' ')
}

fn has_plain_only(line: &[u8]) -> bool
    ensures { result ≡ list_all is_plain line.now }
{
    line.iter().all(|b| b' ' <= *b && *b <= b'~')
}

fn begins_with_hash(line: &[u8]) -> bool
    ensures { result ≡ starts_hash line.now }
{
    match line {
        [first, ..] => *first == b'#',
        [] => false,
    }
}

fn is_blank(line: &[u8]) -> bool
    ensures { result ≡ is_comment line.now }
{
    if begins_with_hash(line) {
        return true;
    }
    has_spaces_only(line)
}

/// The command of a line; none exactly where the bytes are no script line.
#[tactic(auto, unfolding(crate::specs::Commands::parsed))]
pub fn parse_line(alloc: Global, line: &[u8]) -> Result<Option<Command>, OutOfMemory>
    ensures { IfOk result (λ c. c ≡ parsed line.now) }
{
    if is_blank(line) {
        return Ok(Some(Command::Blank));
    }
    if !has_plain_only(line) {
        return Ok(None);
    }
    let list = words(alloc, line)?;
    command_in(alloc, list.as_slice())
}
