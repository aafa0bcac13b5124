ghost use Rattle.std.specs.Prelude.{◌≡◌, ◌≤◌, ◌∷◌, [], length, true, OnOk};
ghost use Rattle.scheme_read.specs.Steps.{feed, takes_datum, Began, Closed, Points, Fed, Took};

use crate::error::ReadErr;
use crate::join::{joined_list, quoted_datum, simple_datum};
use scheme_data::{Datum, LimitKind, List, OutOfMemory, Place, Stack};
use scheme_tokens::{Token, Word};
use sqlite_items::Items;
use std::alloc::Global;

/// How many openings may stand in each other.
const DEEPEST: usize = 200;

/// What is open, with its place and what it has so far.
#[derive(Drop)]
pub enum Frame {
    InList(Place, Items<Datum>),
    /// A list after its dot.
    AfterDot(Place, Items<Datum>),
    /// A list after the datum behind its dot.
    AfterTail(Place, Items<Datum>, Datum),
    InVector(Place, Items<Datum>),
    AfterQuote(Place),
}

/// A reader in the middle of a text: what is open, and the data before it.
#[derive(Drop)]
pub struct Reader {
    pub stack: Stack<Frame>,
    pub done: List<Datum>,
}

impl Reader {
    fn takes_datum(&self) -> bool
        ensures { result ≡ takes_datum self.now.stack }
    {
        match self.stack.top() {
            Some(Frame::AfterTail(..)) => false,
            _ => true,
        }
    }

    /// Takes a datum that is read whole.
    fn feed(&mut self, alloc: Global, first: Datum) -> Result<(), OutOfMemory>
        ensures { OnOk result (self.new ≡ feed self.old.stack self.old.done first) }
    {
        let mut datum = first;
        while let Some(frame) = self.stack.pop() {
            match frame {
                Frame::InList(at, mut items) => {
                    items.push(datum)?;
                    return self.stack.push(Frame::InList(at, items));
                }
                Frame::AfterDot(at, items) => {
                    return self.stack.push(Frame::AfterTail(at, items, datum));
                }
                Frame::AfterTail(at, items, tail) => {
                    return self.stack.push(Frame::AfterTail(at, items, tail));
                }
                Frame::InVector(at, mut items) => {
                    items.push(datum)?;
                    return self.stack.push(Frame::InVector(at, items));
                }
                Frame::AfterQuote(at) => {
                    datum = quoted_datum(alloc, at, datum)?;
                }
            }
        }
        self.done.push(datum)
    }

    fn begin(&mut self, at: Place, frame: Frame) -> Result<(), ReadErr>
        requires { takes_datum (frame ∷ []) ≡ true }
        ensures value { Began self.old at frame result self.new }
        ensures low { OnOk result (length self.new.stack ≤ 200) }
    {
        if !self.takes_datum() {
            return Err(ReadErr::Syntax(at));
        }
        if self.stack.len() >= DEEPEST {
            return Err(ReadErr::Limit(LimitKind::Depth, at));
        }
        self.stack.push(frame)?;
        Ok(())
    }

    fn close(&mut self, alloc: Global, at: Place) -> Result<(), ReadErr>
        ensures { Closed self.old at result self.new }
    {
        let datum = match self.stack.pop() {
            Some(Frame::InList(o, items)) => Datum::List(o, items),
            Some(Frame::AfterTail(o, items, tail)) => joined_list(alloc, o, items, tail)?,
            Some(Frame::InVector(o, items)) => Datum::Vector(o, items),
            _ => return Err(ReadErr::Syntax(at)),
        };
        self.feed(alloc, datum)?;
        Ok(())
    }

    fn point(&mut self, at: Place) -> Result<(), ReadErr>
        ensures { Points self.old at result self.new }
    {
        match self.stack.pop() {
            Some(Frame::InList(o, items)) => {
                if items.is_empty() {
                    return Err(ReadErr::Syntax(at));
                }
                self.stack.push(Frame::AfterDot(o, items))?;
                Ok(())
            }
            _ => Err(ReadErr::Syntax(at)),
        }
    }

    fn put(&mut self, alloc: Global, at: Place, datum: Datum) -> Result<(), ReadErr>
        ensures { Fed self.old at datum result self.new }
    {
        if !self.takes_datum() {
            return Err(ReadErr::Syntax(at));
        }
        self.feed(alloc, datum)?;
        Ok(())
    }

    /// Takes a token; refused where no data go on so, or go too deep.
    pub fn step(&mut self, alloc: Global, token: Token) -> Result<(), ReadErr>
        ensures value { Took self.old token result self.new }
        ensures low { OnOk result (length self.old.stack ≤ 200 → length self.new.stack ≤ 200) }
    {
        let Token { at, word } = token;
        match word {
            Word::Open => self.begin(at, Frame::InList(at, Items::new(alloc))),
            Word::OpenVector => self.begin(at, Frame::InVector(at, Items::new(alloc))),
            Word::Close => self.close(alloc, at),
            Word::Quote => self.begin(at, Frame::AfterQuote(at)),
            Word::Dot => self.point(at),
            Word::Atom(atom) => self.put(alloc, at, simple_datum(at, atom)),
            Word::Bad => Err(ReadErr::Syntax(at)),
        }
    }
}
