// Arguments that were evaluated are made to fit the types of parameters.
ghost use Rattle.std.specs.Prelude.{◌≡◌, ◌∷◌, [], length, IfOk, IsTrue};
ghost use Rattle.built_table.specs.Table.{is_parameter_type};
ghost use Rattle.c_tree.specs.Names.{local_name};
ghost use Rattle.plan_rules.specs.Representation.{step};
ghost use Rattle.code_gen.specs.Emission.{step_of, types_of, AreParameters, AreBelow, held_names, IsRefused, IsFitted, AreFitted};

use crate::emitter::{Emitter, Held};
use crate::parts::{made_from, raise_type, rep};
use crate::wanted::Wanted;
use built_table::Ty;
use c_tree::{CAtom, CExpr, Op, Piece};
use plan_rules::Rep;
use scheme_data::{List, OutOfMemory};

/// What makes a value fit a type: nothing, an operation, or the raising of an error since no value of its representation fits.
#[derive(Clone, Copy, Debug)]
pub enum Coercion {
    Keep,
    Make(Op),
    Refuse,
}

/// What makes a value of a representation fit a parameter's type.
pub fn coercion_to(ty: Ty, rep: Rep) -> Coercion
    requires { IsTrue (is_parameter_type ty) }
    ensures { step_of result ≡ step ty rep }
{
    match (ty, rep) {
        (Ty::Obj, Rep::Long) => Coercion::Make(Op::BoxLong),
        (Ty::Obj, Rep::Bool) => Coercion::Make(Op::BoxBool),
        (Ty::Long, Rep::Obj) => Coercion::Make(Op::UnboxLong),
        (Ty::Long, Rep::Bool) => Coercion::Refuse,
        (Ty::Obj, Rep::Obj) | (Ty::Long, Rep::Long) => Coercion::Keep,
        (Ty::Bool, _) => unreachable!(),
    }
}

// The error of a type is raised, and then a new local has the number 0.
fn refused(e: &mut Emitter, ty: Ty) -> Result<u32, OutOfMemory>
    ensures { IfOk result (λ made. IsRefused e.old e.new ty made) }
{
    let raise = raise_type(e.alloc, ty)?;
    e.put(Piece::Call(raise))?;
    let made = e.store(rep(ty), CExpr::Atom(CAtom::Int(0)))?;
    Ok(made.local)
}

fn fit(e: &mut Emitter, ty: Ty, held: Held) -> Result<u32, OutOfMemory>
    requires parameter { IsTrue (is_parameter_type ty) }
    requires below { AreBelow e.old.next (local_name held.local ∷ []) }
    ensures { IfOk result (λ made. IsFitted e.old e.new ty held made) }
{
    match coercion_to(ty, held.rep) {
        Coercion::Keep => Ok(held.local),
        Coercion::Make(op) => {
            let value = made_from(e.alloc, op, held.local)?;
            let made = e.store(rep(ty), value)?;
            Ok(made.local)
        }
        Coercion::Refuse => refused(e, ty),
    }
}

/// Values are made to fit, from left to right.
pub fn fitted(e: &mut Emitter, wanted: Wanted, held: &[Held]) -> Result<List<u32>, OutOfMemory>
    requires parameters { AreParameters (types_of wanted) }
    requires as_many { length (types_of wanted) ≡ length held.now }
    requires below { AreBelow e.old.next (held_names held.now) }
    ensures { IfOk result (λ made. AreFitted e.old e.new (types_of wanted) held.now made) }
{
    let mut made = List::new(e.alloc);
    for i in 0..held.len() {
        let one = fit(e, wanted.at(i), held[i])?;
        made.push(one)?;
    }
    Ok(made)
}
