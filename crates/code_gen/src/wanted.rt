// What calls want of their arguments.
ghost use Rattle.std.specs.Prelude.{◌≡◌, ◌<◌, length, slice_get, Some};
ghost use Rattle.code_gen.specs.Emission.{types_of};

use built_table::{Primitive, Ty};

/// What a call wants of its arguments: so many words, or what a primitive takes.
#[derive(Clone, Copy, Debug)]
pub enum Wanted {
    Words(usize),
    Of(Primitive),
}

impl Wanted {
    /// The type of the argument at a place.
    pub fn at(self, place: usize) -> Ty
        requires { place < length (types_of self) }
        ensures { slice_get (types_of self) place ≡ Some result }
    {
        match self {
            Wanted::Words(_) => Ty::Obj,
            Wanted::Of(p) => match p.param(place) {
                Some(ty) => ty,
                None => unreachable!(),
            },
        }
    }
}
