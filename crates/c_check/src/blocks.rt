ghost use Rattle.std.specs.Prelude.{◌≡◌, [], ◌∷◌, OnOk, IfOk};
ghost use Rattle.std.specs.Map.{lookup};
ghost use Rattle.scheme_data.specs.Names.{is_same};
ghost use Rattle.c_meaning.specs.Breaches.{may_go, may_return};
ghost use Rattle.c_check.specs.Walks.{tail};
ghost use Rattle.c_check.specs.Blocks.{IsOpen, depth_of, opens_of, kept_room};

use crate::named::Named;
use crate::room::Room;
use scheme_data::{OutOfMemory, Stack, Text};
use std::alloc::Global;

/// What is open around a place, with what may stand around it.
#[derive(Drop)]
pub enum Kept {
    /// A branch of an `if`.
    Branch(Room),
    /// A loop or a block with a label, and the depth of the block of this label around it, or 0.
    Within(Text, usize, Room),
    /// A block that no `goto` or `return` leaves, and the depth of the one around it, or 0.
    Held(usize, Room),
}

/// The blocks that are open around a place. Depths are counted from 1, and found by label, so that no look at a `goto` walks over the blocks.
#[derive(Drop)]
pub struct Blocks {
    pub kept: Stack<Kept>,
    /// How deep the innermost block of a label is, or 0.
    pub depths: Named<usize>,
    /// How deep the innermost held block is, or 0.
    pub held: usize,
}

impl Blocks {
    /// No blocks.
    pub fn new(alloc: Global) -> Blocks
        ensures none { result.kept ≡ [] }
        ensures depths { IsOpen result }
    {
        Blocks {
            kept: Stack::new(alloc),
            depths: Named::new(alloc),
            held: 0,
        }
    }

    fn depth(&self, label: &[u8]) -> usize
        ensures { result ≡ depth_of (lookup (is_same label.now) self.now.depths) }
    {
        match self.depths.get(label) {
            None => 0,
            Some(depth) => *depth,
        }
    }

    /// Whether a `goto` may lead to a label.
    pub fn may_go(&self, label: &[u8]) -> bool
        requires { IsOpen self.now }
        ensures { result ≡ may_go (opens_of self.now.kept) label.now }
    {
        self.held < self.depth(label)
    }

    /// Whether `return` may stand here.
    pub fn may_return(&self) -> bool
        requires { IsOpen self.now }
        ensures { result ≡ may_return (opens_of self.now.kept) }
    {
        self.held == 0
    }

    /// A branch of an `if` begins.
    pub fn branch(&mut self, room: Room) -> Result<(), OutOfMemory>
        requires { IsOpen self.old }
        ensures kept { OnOk result (self.new.kept ≡ Kept.Branch room ∷ self.old.kept) }
        ensures depths { OnOk result (IsOpen self.new) }
    {
        self.kept.push(Kept::Branch(room))?;
        Ok(())
    }

    /// A block with a label begins.
    pub fn label(&mut self, alloc: Global, label: &[u8], room: Room) -> Result<(), OutOfMemory>
        requires { IsOpen self.old }
        ensures kept { OnOk result (self.new.kept ≡ Kept.Within label.now (depth_of (lookup (is_same label.now) self.old.depths)) room ∷ self.old.kept) }
        ensures depths { OnOk result (IsOpen self.new) }
    {
        let text = Text::from_bytes(alloc, label)?;
        let outer = self.depth(label);
        self.kept.push(Kept::Within(text, outer, room))?;
        self.depths.set(label, self.kept.len())?;
        Ok(())
    }

    /// A block that is held begins.
    pub fn hold(&mut self, room: Room) -> Result<(), OutOfMemory>
        requires { IsOpen self.old }
        ensures kept { OnOk result (self.new.kept ≡ Kept.Held self.old.held room ∷ self.old.kept) }
        ensures depths { OnOk result (IsOpen self.new) }
    {
        self.kept.push(Kept::Held(self.held, room))?;
        self.held = self.kept.len();
        Ok(())
    }

    /// The innermost block ends. What stood around it is given back.
    pub fn close(&mut self) -> Result<Option<Room>, OutOfMemory>
        requires { IsOpen self.old }
        ensures kept { OnOk result (self.new.kept ≡ tail self.old.kept) }
        ensures depths { OnOk result (IsOpen self.new) }
        ensures room { IfOk result (λ room. room ≡ kept_room self.old.kept) }
    {
        match self.kept.pop() {
            None => Ok(None),
            Some(Kept::Branch(room)) => Ok(Some(room)),
            Some(Kept::Within(label, outer, room)) => {
                self.depths.set(label.as_bytes(), outer)?;
                Ok(Some(room))
            }
            Some(Kept::Held(outer, room)) => {
                self.held = outer;
                Ok(Some(room))
            }
        }
    }
}
