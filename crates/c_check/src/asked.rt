ghost use Rattle.std.specs.Prelude.{◌≡◌, length, map, slice_get};
ghost use Rattle.c_tree.specs.declared.op.Wants.TheVariants.{AType};
ghost use Rattle.c_tree.specs.Operations.{or_more};
ghost use Rattle.c_check.specs.Asked.{wants_in, asks_more};

use c_tree::{CTy, Op, Wants};

/// What is asked of the arguments of a call.
#[derive(Drop)]
pub enum Asked<'a> {
    /// Of a function that isn't declared.
    Nothing,
    /// Of a function with parameters of these types.
    Types(&'a [CTy]),
    Of(Op),
}

impl<'a> Asked<'a> {
    /// What is asked of the argument at a place; none where none is asked for.
    pub fn at(&self, place: usize) -> Option<Wants>
        ensures { result ≡ or_more (asks_more self.now) (slice_get (wants_in self.now) place) }
    {
        match self {
            Asked::Nothing => None,
            Asked::Types(types) => type_at(types, place),
            Asked::Of(op) => op.wants(place),
        }
    }

    /// How many arguments there must be at least.
    pub fn count(&self) -> usize
        ensures { result ≡ length (wants_in self.now) }
    {
        match self {
            Asked::Nothing => 0,
            Asked::Types(types) => types.len(),
            Asked::Of(op) => op.arity(),
        }
    }
}

fn type_at(types: &[CTy], place: usize) -> Option<Wants>
    ensures { result ≡ slice_get (map AType types.now) place }
{
    match types.get(place) {
        None => None,
        Some(t) => Some(Wants::AType(*t)),
    }
}
