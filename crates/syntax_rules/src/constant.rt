ghost use Rattle.std.specs.Prelude.{◌≡◌, IfOk};
ghost use Rattle.scheme_data.specs.Forms.{form, atom};
ghost use Rattle.syntax_rules.specs.Matching.{atom_is, atom_if};
ghost use Rattle.syntax_rules.specs.TreeViews.{atom_of, constant_if};

use crate::tree::Constant;
use scheme_data::{Datum, OutOfMemory, Place};
use std::alloc::Global;

impl Constant {
    /// The constant that a datum is, if it is one.
    pub(crate) fn of(alloc: Global, d: &Datum) -> Result<Option<Constant>, OutOfMemory>
        ensures { IfOk result (λ o. constant_if o ≡ atom_if (form d.now)) }
    {
        Ok(match d {
            Datum::Int(_, n) => Some(Constant::Int(*n)),
            Datum::Chr(_, b) => Some(Constant::Chr(*b)),
            Datum::Bool(_, t) => Some(Constant::Bool(*t)),
            Datum::Unspec(_) => Some(Constant::Unspec),
            Datum::Str(_, text) => Some(Constant::Str(text.copy(alloc)?)),
            Datum::Sym(_, _, _) => None,
            Datum::List(_, _) => None,
            Datum::Dotted(_, _, _) => None,
            Datum::Vector(_, _) => None,
        })
    }

    /// Whether a datum is of the same kind and value.
    pub(crate) fn is(&self, d: &Datum) -> bool
        ensures { result ≡ atom_is (atom_of self.now) (form d.now) }
    {
        match self {
            Constant::Int(n) => match d {
                Datum::Int(_, m) => *n == *m,
                _ => false,
            },
            Constant::Chr(b) => match d {
                Datum::Chr(_, c) => *b == *c,
                _ => false,
            },
            Constant::Bool(t) => match d {
                Datum::Bool(_, u) => *t == *u,
                _ => false,
            },
            Constant::Unspec => match d {
                Datum::Unspec(_) => true,
                _ => false,
            },
            Constant::Str(text) => match d {
                Datum::Str(_, other) => text.as_bytes() == other.as_bytes(),
                _ => false,
            },
        }
    }

    /// The datum that it is at a place.
    pub(crate) fn datum(&self, alloc: Global, at: Place) -> Result<Datum, OutOfMemory>
        ensures { IfOk result (λ d. form d ≡ atom at (atom_of self.now)) }
    {
        Ok(match self {
            Constant::Int(n) => Datum::Int(at, *n),
            Constant::Chr(b) => Datum::Chr(at, *b),
            Constant::Bool(t) => Datum::Bool(at, *t),
            Constant::Unspec => Datum::Unspec(at),
            Constant::Str(text) => Datum::Str(at, text.copy(alloc)?),
        })
    }
}
