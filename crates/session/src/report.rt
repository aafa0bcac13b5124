// What the program says of its answer: a status and one line.
ghost use Rattle.std.specs.Prelude.{◌≡◌, ◌++◌, codes, IfOk};
ghost use Rattle.scheme_data.specs.Decimal.{decimal_text};
ghost use Rattle.session.specs.Messages.{status_of, end_status, message_of, line_words, place_words, refusal_words};

use crate::answer::{Answer, Refusal};
use base_io::End;
use c_meaning::BadCause;
use scheme_data::{LimitKind, OutOfMemory, Place, Text, push_decimal};
use std::alloc::Global;

// The statuses where not every line was done.
const USAGE: u8 = 240;

const BAD_LINE: u8 = 241;

const NO_FILE: u8 = 242;

const FILE_FAULT: u8 = 243;

const READ_FAULT: u8 = 244;

const INPUT_LONG: u8 = 245;

const WRITE_FAULT: u8 = 246;

const REFUSED: u8 = 247;

const NO_MEMORY: u8 = 248;

// Those of runs that didn't end with a status of their own.
const RAISED: u8 = 250;

const SPENT: u8 = 251;

const RUN_FAULT: u8 = 252;

fn status_of_end(end: &End) -> u8
    ensures { result ≡ end_status end.now }
{
    match end {
        End::Ended(status) => *status,
        End::Raised(_, _) => RAISED,
        End::Spent => SPENT,
        End::Fault(_) => RUN_FAULT,
    }
}

/// The status that the program ends with: that of the last run, 0 where there was none, and from 240 on where not every line was done.
pub fn status(answer: &Answer) -> u8
    ensures { result ≡ status_of answer.now }
{
    match answer {
        Answer::Done(ends) => match ends.as_slice().last() {
            Some(end) => status_of_end(end),
            None => 0,
        },
        Answer::Usage => USAGE,
        Answer::BadLine(_) => BAD_LINE,
        Answer::NoFile(_) => NO_FILE,
        Answer::FileFault(_) => FILE_FAULT,
        Answer::ReadFault => READ_FAULT,
        Answer::InputLong => INPUT_LONG,
        Answer::WriteFault => WRITE_FAULT,
        Answer::Refused(_, _) => REFUSED,
        Answer::Memory => NO_MEMORY,
    }
}

fn line_text(alloc: Global, number: u64, rest: &[u8]) -> Result<Text, OutOfMemory>
    ensures { IfOk result (λ text. text ≡ line_words number ++ rest.now) }
{
    let mut text = Text::from_bytes(alloc, b"line ")?;
    push_decimal(&mut text, number)?;
    text.extend(rest)?;
    Ok(text)
}

fn name_text(alloc: Global, words: &[u8], name: &Text) -> Result<Text, OutOfMemory>
    ensures { IfOk result (λ text. text ≡ words.now ++ name.now) }
{
    let mut text = Text::from_bytes(alloc, words)?;
    text.extend(name.as_bytes())?;
    Ok(text)
}

// After the words comes a place.
fn place_text(alloc: Global, number: u64, words: &[u8], at: Place) -> Result<Text, OutOfMemory>
    ensures { IfOk result (λ text. text ≡ line_words number ++ (words.now ++ place_words at)) }
{
    let mut text = line_text(alloc, number, words)?;
    push_decimal(&mut text, at.line as u64)?;
    text.push(b':')?;
    push_decimal(&mut text, at.column as u64)?;
    Ok(text)
}

fn breach_text(
    alloc: Global,
    number: u64,
    name: &Text,
    cause: BadCause,
) -> Result<Text, OutOfMemory>
    ensures { IfOk result (λ text. text ≡ line_words number ++ refusal_words (Refusal.BadC name.now cause)) }
{
    let mut text = line_text(alloc, number, b": refusal 15 ")?;
    text.extend(name.as_bytes())?;
    text.push(b' ')?;
    text.extend(cause.name())?;
    Ok(text)
}

// After the words come the number of an object and the name of a module that it wants.
fn missing_text(
    alloc: Global,
    number: u64,
    words: &[u8],
    object: u64,
    module_name: &Text,
) -> Result<Text, OutOfMemory>
    ensures { IfOk result (λ text. text ≡ line_words number ++ (words.now ++ decimal_text object ++ codes " " ++ module_name.now)) }
{
    let mut text = line_text(alloc, number, words)?;
    push_decimal(&mut text, object)?;
    text.push(b' ')?;
    text.extend(module_name.as_bytes())?;
    Ok(text)
}

fn missing_name_text(
    alloc: Global,
    number: u64,
    object: u64,
    module_name: &Text,
    name: &Text,
) -> Result<Text, OutOfMemory>
    ensures { IfOk result (λ text. text ≡ line_words number ++ refusal_words (Refusal.MissingName object module_name.now name.now)) }
{
    let mut text = missing_text(alloc, number, b": refusal 18 ", object, module_name)?;
    text.push(b' ')?;
    text.extend(name.as_bytes())?;
    Ok(text)
}

fn duplicate_text(alloc: Global, number: u64, name: &Text) -> Result<Text, OutOfMemory>
    ensures { IfOk result (λ text. text ≡ line_words number ++ refusal_words (Refusal.Duplicate name.now)) }
{
    let mut text = line_text(alloc, number, b": refusal 4 ")?;
    text.extend(name.as_bytes())?;
    Ok(text)
}

fn refusal_text(alloc: Global, number: u64, refusal: &Refusal) -> Result<Text, OutOfMemory>
    ensures { IfOk result (λ text. text ≡ line_words number ++ refusal_words refusal.now) }
{
    match refusal {
        Refusal::NotBuilt => line_text(alloc, number, b": refusal 0"),
        Refusal::Syntax(at) => place_text(alloc, number, b": refusal 1 ", *at),
        Refusal::Limit(LimitKind::Bytes) => line_text(alloc, number, b": refusal 2 Bytes"),
        Refusal::Limit(LimitKind::Depth) => line_text(alloc, number, b": refusal 2 Depth"),
        Refusal::Limit(LimitKind::Expansions) => {
            line_text(alloc, number, b": refusal 2 Expansions")
        }
        Refusal::Limit(LimitKind::Filled) => line_text(alloc, number, b": refusal 2 Filled"),
        Refusal::Header(at) => place_text(alloc, number, b": refusal 3 ", *at),
        Refusal::Duplicate(name) => duplicate_text(alloc, number, name),
        Refusal::BadRules(at) => place_text(alloc, number, b": refusal 6 ", *at),
        Refusal::NoRule(at) => place_text(alloc, number, b": refusal 7 ", *at),
        Refusal::Form(at) => place_text(alloc, number, b": refusal 8 ", *at),
        Refusal::NotC(at) => place_text(alloc, number, b": refusal 14 ", *at),
        Refusal::BadC(name, cause) => breach_text(alloc, number, name, *cause),
        Refusal::MissingModule(object, module_name) => {
            missing_text(alloc, number, b": refusal 17 ", *object, module_name)
        }
        Refusal::MissingName(object, module_name, name) => {
            missing_name_text(alloc, number, *object, module_name, name)
        }
    }
}

/// One line, without its end, on what kept the program from doing all; the empty text where it did all.
pub fn message(alloc: Global, answer: &Answer) -> Result<Text, OutOfMemory>
    ensures { IfOk result (λ text. text ≡ message_of answer.now) }
{
    match answer {
        Answer::Done(_) => Ok(Text::new(alloc)),
        Answer::Usage => Text::from_bytes(alloc, b"usage"),
        Answer::BadLine(number) => line_text(alloc, *number, b": not a command"),
        Answer::NoFile(name) => name_text(alloc, b"no file ", name),
        Answer::FileFault(name) => name_text(alloc, b"file fault ", name),
        Answer::ReadFault => Text::from_bytes(alloc, b"read fault"),
        Answer::InputLong => Text::from_bytes(alloc, b"input too long"),
        Answer::WriteFault => Text::from_bytes(alloc, b"write fault"),
        Answer::Refused(number, refusal) => refusal_text(alloc, *number, refusal),
        Answer::Memory => Text::from_bytes(alloc, b"memory"),
    }
}
