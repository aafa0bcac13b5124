// Texts cut at a byte.
ghost use Rattle.std.specs.Prelude.{◌≡◌, IfOk};
ghost use Rattle.commands.specs.Commands.{parts_of, words_of};

use scheme_data::{OutOfMemory, Text, TextList};
use std::alloc::Global;

/// A list of copies.
pub fn copy_all(alloc: Global, texts: &[Text]) -> Result<TextList, OutOfMemory>
    ensures { IfOk result (λ list. list ≡ texts.now) }
{
    let mut list = TextList::new(alloc);
    for text in texts {
        list.push(text.copy(alloc)?)?;
    }
    Ok(list)
}

/// The parts between the bytes `at`.
pub fn parts(alloc: Global, bytes: &[u8], at: u8) -> Result<TextList, OutOfMemory>
    ensures { IfOk result (λ list. list ≡ parts_of at bytes.now) }
{
    let mut list = TextList::new(alloc);
    let mut part = Text::new(alloc);
    for byte in bytes {
        if *byte == at {
            list.push(part)?;
            part = Text::new(alloc);
        } else {
            part.push(*byte)?;
        }
    }
    list.push(part)?;
    Ok(list)
}

/// The words of a line, which have spaces between them.
pub fn words(alloc: Global, line: &[u8]) -> Result<TextList, OutOfMemory>
    ensures { IfOk result (λ list. list ≡ words_of line.now) }
{
    let pieces = parts(alloc, line, b' ')?;
    let mut list = TextList::new(alloc);
    for piece in pieces.as_slice() {
        if !piece.as_bytes().is_empty() {
            list.push(piece.copy(alloc)?)?;
        }
    }
    Ok(list)
}
