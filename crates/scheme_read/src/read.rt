ghost use Rattle.std.specs.Prelude.{◌≡◌, ◌≤◌, List, length, IfOk};
ghost use Rattle.scheme_data.specs.Data.{AreProper, deepest, plain_all};
ghost use Rattle.scheme_data.specs.declared.datum.Datum.{Datum};
ghost use Rattle.scheme_read.specs.declared.error.ReadErr.{ReadErr};
ghost use Rattle.scheme_read.specs.Answers.{Reads, Gives, Refuses, IsSource, IsFault};

use crate::error::ReadErr;
use crate::reader::Reader;
use scheme_data::{Datum, LimitKind, List, Place, Stack, place_after};
use scheme_tokens::{Lexeme, Token, lexeme_at};
use std::alloc::Global;

/// How many bytes a source may have.
const LONGEST: usize = 1_048_576;

const START: Place = Place { line: 1, column: 1 };

/// The data of a text of at most 1,048,576 bytes, with at most 200 openings in each other.
pub fn read_all(alloc: Global, bytes: &[u8]) -> Result<List<Datum>, ReadErr>
    // What is read is spelled so, and a refusal stands where the text is at fault.
    ensures answer { Reads bytes.now result }
    // Its numbers are fixnums, its symbols have a symbol's bytes, and a dotted list ends in no list.
    ensures proper { IfOk result (λ ds. AreProper (plain_all ds)) }
    ensures nesting { IfOk result (λ ds. deepest (plain_all ds) ≤ 200) }
    // What is spelled so is read, unless memory runs out.
    ensures given { (data_read : List Datum) → IsSource bytes.now data_read → Gives data_read result }
    // What is at fault is refused for that and there, unless memory runs out.
    ensures refused { (fault : ReadErr) → IsFault bytes.now fault → Refuses fault result }
{
    if bytes.len() > LONGEST {
        return Err(ReadErr::Limit(LimitKind::Bytes, START));
    }
    read(alloc, bytes)
}

fn read(alloc: Global, bytes: &[u8]) -> Result<List<Datum>, ReadErr>
    requires { length bytes.now ≤ 1048576 }
    ensures { Reads bytes.now result }
{
    let mut reader = Reader {
        stack: Stack::new(alloc),
        done: List::new(alloc),
    };
    let mut place = START;
    let mut skip: usize = 0;
    for i in 0..bytes.len() {
        if skip > 0 {
            skip -= 1;
        } else {
            match lexeme_at(alloc, &bytes[i..])? {
                Lexeme::Gap(size) => skip = size,
                Lexeme::Token(word, size) => {
                    reader.step(alloc, Token { at: place, word })?;
                    skip = size;
                }
            }
        }
        place = place_after(place, bytes[i]);
    }
    let Reader { stack, done } = reader;
    if stack.is_empty() {
        Ok(done)
    } else {
        Err(ReadErr::Syntax(place))
    }
}
