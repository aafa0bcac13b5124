ghost use Rattle.std.specs.Prelude.{◌≡◌};
ghost use Rattle.c_meaning.specs.Breaches.{cause_name};

use scheme_data::Text;

/// Which rule of checked C is broken, in the order in which they decide at one token.
#[derive(Clone, Copy, Debug, PartialEq, Eq)]
pub enum BadCause {
    /// What is used is declared earlier, and defined in the text.
    Undeclared,
    /// Declarations of one name agree.
    Clash,
    /// Each name is defined once. Labels and locals are distinct in a function.
    Twice,
    /// C types and numbers of arguments agree.
    Types,
    /// A `goto` leads to a label around it, and nothing leaves a block of `BGL_CATCH` or `BGL_PROTECT`.
    Label,
    /// Functions have the shapes of their kinds.
    Shape,
}

impl BadCause {
    /// Its name, as messages spell it.
    pub fn name(self) -> &'static [u8]
        ensures { result.now ≡ cause_name self }
    {
        match self {
            BadCause::Undeclared => b"Undeclared",
            BadCause::Clash => b"Clash",
            BadCause::Twice => b"Twice",
            BadCause::Types => b"Types",
            BadCause::Label => b"Label",
            BadCause::Shape => b"Shape",
        }
    }
}

/// A broken rule: the function or the declaration in which it is broken, or the name that is wanted at the end of the text.
#[derive(Drop, Debug)]
pub struct Breach {
    pub name: Text,
    pub cause: BadCause,
}
