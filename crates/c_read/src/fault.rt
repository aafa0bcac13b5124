// Where a text without a tree is wrong: one walk over its bytes that knows what is due.
ghost use Rattle.std.specs.Prelude.{◌≡◌, ◌<◌, [], ◌∷◌, length, IfOk, MatchBool, Some, None};
ghost use Rattle.scheme_data.specs.Places.{start};
ghost use Rattle.c_tree.specs.Faults.{IsBadAt};
ghost use Rattle.c_read.specs.Reading.{HasNoTree};
ghost use Rattle.c_read.specs.Dues.{advance};
ghost use Rattle.c_read.specs.Reaches.{passed, over_kind, over_front};
ghost use Rattle.c_read.specs.declared.dues.Due.TheVariants as Due;

use crate::dues::{Due, advance};
use crate::kinds::Kind;
use crate::lex::{Scan, scan_at};
use scheme_data::{OutOfMemory, Place, Stack, place_after};
use std::alloc::Global;

/// How far a walk is: the place, how many bytes there belong to what began before, and what is due.
#[derive(Drop)]
pub struct Reach {
    pub at: Place,
    pub skip: usize,
    pub dues: Stack<Due>,
}

impl Reach {
    fn new(alloc: Global) -> Result<Reach, OutOfMemory>
        ensures { IfOk result (λ r. r ≡ record { at = start; skip = 0; dues = Due.Items ∷ [] }) }
    {
        let mut dues = Stack::new(alloc);
        dues.push(Due::Items)?;
        Ok(Reach {
            at: Place { line: 1, column: 1 },
            skip: 0,
            dues,
        })
    }

    fn pass(&mut self, byte: u8, skip: usize)
        ensures { self.new ≡ passed self.old byte skip self.old.dues }
    {
        self.at = place_after(self.at, byte);
        self.skip = skip;
    }

    // Over the first byte of a token of a kind; false where none can stand here.
    fn take(&mut self, byte: u8, kind: Kind, more: usize) -> Result<bool, OutOfMemory>
        ensures answer { IfOk result (λ went. MatchBool went (over_kind self.old byte kind more ≡ Some self.new) (over_kind self.old byte kind more ≡ None)) }
        ensures place { IfOk result (λ went. MatchBool went (Unit {0}) (self.new.at ≡ self.old.at)) }
    {
        if !advance(&mut self.dues, kind)? {
            return Ok(false);
        }
        self.pass(byte, more);
        Ok(true)
    }

    // Over one byte; false where a token begins that can't stand here.
    fn step(&mut self, text: &[u8]) -> Result<bool, OutOfMemory>
        requires { 0 < length text.now }
        ensures answer { IfOk result (λ went. MatchBool went (over_front self.old text.now ≡ Some self.new) (over_front self.old text.now ≡ None)) }
        ensures place { IfOk result (λ went. MatchBool went (Unit {0}) (self.new.at ≡ self.old.at)) }
    {
        if self.skip > 0 {
            self.pass(text[0], self.skip - 1);
            return Ok(true);
        }
        match scan_at(text) {
            Scan::Gap(more) => {
                self.pass(text[0], more);
                Ok(true)
            }
            Scan::Lexed(token, more) => self.take(text[0], token.kind(), more),
        }
    }
}

/// Where a text without a tree is wrong.
pub fn fault(alloc: Global, bytes: &[u8]) -> Result<Place, OutOfMemory>
    requires { HasNoTree bytes.now }
    ensures { IfOk result (IsBadAt bytes.now) }
{
    let mut reach = Reach::new(alloc)?;
    for i in 0..bytes.len() {
        if !reach.step(&bytes[i..])? {
            return Ok(reach.at);
        }
    }
    Ok(reach.at)
}
