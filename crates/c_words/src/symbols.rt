// Whether bytes that come one by one are a symbol.
ghost use Rattle.std.specs.Prelude.{◌≡◌, ◌∷◌, [], List, ℕ};
ghost use Rattle.scheme_data.specs.Symbols.{is_symbol};
ghost use Rattle.c_words.specs.Shapes.{goes_on, completes};
ghost use Rattle.c_words.specs.declared.symbols.Shape.TheVariants as shape;

use scheme_data::{is_digit, is_symbol_byte};

/// What the bytes so far are: a sign, a dot, another symbol's beginning, or no symbol's.
#[derive(Clone, Copy)]
pub enum Shape {
    Nothing,
    Sign,
    Dot,
    Symbol,
    Wrong,
}

/// The bytes so far of what may be a symbol, and how many more it may have.
#[derive(Clone, Copy)]
pub struct SymbolBytes {
    shape: Shape,
    room: u8,
}

fn first_shape(byte: u8) -> Shape
    ensures { (rest : List ℕ) → goes_on result rest ≡ goes_on shape.Nothing (byte ∷ rest) }
{
    match byte {
        b'.' => Shape::Dot,
        b'+' | b'-' => Shape::Sign,
        b'0'..=b'9' => Shape::Wrong,
        _ => Shape::Symbol,
    }
}

// Behind a sign or a dot.
fn second_shape(byte: u8) -> Shape
    ensures { (rest : List ℕ) → goes_on result rest ≡ goes_on shape.Sign (byte ∷ rest) }
{
    if is_digit(byte) {
        Shape::Wrong
    } else {
        Shape::Symbol
    }
}

impl Shape {
    fn behind(self, byte: u8) -> Shape
        ensures { (rest : List ℕ) → goes_on result rest ≡ goes_on self (byte ∷ rest) }
    {
        match self {
            Shape::Nothing => first_shape(byte),
            Shape::Sign | Shape::Dot => second_shape(byte),
            Shape::Symbol => Shape::Symbol,
            Shape::Wrong => Shape::Wrong,
        }
    }
}

impl SymbolBytes {
    /// Before the first byte.
    pub fn new() -> SymbolBytes
        ensures { (rest : List ℕ) → completes result rest ≡ is_symbol rest }
    {
        SymbolBytes {
            shape: Shape::Nothing,
            room: 255,
        }
    }

    /// Takes the byte that comes next.
    pub fn step(&mut self, byte: u8)
        ensures { (rest : List ℕ) → completes self.new rest ≡ completes self.old (byte ∷ rest) }
    {
        if self.room == 0 || !is_symbol_byte(byte) {
            self.shape = Shape::Wrong;
            return;
        }
        self.shape = self.shape.behind(byte);
        self.room -= 1;
    }

    /// Whether the bytes so far are a symbol.
    pub fn is_symbol(&self) -> bool
        ensures { result ≡ completes self.now [] }
    {
        match self.shape {
            Shape::Sign | Shape::Symbol => true,
            Shape::Nothing | Shape::Dot | Shape::Wrong => false,
        }
    }
}
