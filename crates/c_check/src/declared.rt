ghost use Rattle.std.specs.Prelude.{◌≡◌, [], ◌∷◌, ◌++◌, map, None, IfOk, OnOk, option_copied};
ghost use Rattle.std.specs.Option.{option_map};
ghost use Rattle.c_tree.specs.Code.{defined};
ghost use Rattle.c_tree.specs.Functions.{fun_of};
ghost use Rattle.c_meaning.specs.Plain.{signature_of, signature_named};
ghost use Rattle.c_check.specs.Signatures.{signed, with_signature};

use crate::named::Named;
use c_tree::{CFun, CTy, CVar};
use scheme_data::{List, OutOfMemory};
use std::alloc::Global;
use std::marker::Model;

/// The types of a function.
#[derive(Drop)]
pub struct Shape {
    pub gives: CTy,
    pub params: List<CTy>,
}

/// Signatures with distinct names, each found by its name.
#[derive(Drop)]
pub struct Declared {
    shapes: Named<Shape>,
}

impl Model for Declared {
    ghost use Rattle.std.specs.Prelude.{List};
    ghost use Rattle.c_meaning.specs.Plain.{Signature};
    ghost use Rattle.c_check.specs.Entries.{signatures_of_entries};

    ghost Value = { List Signature };

    ghost view = { λ d. signatures_of_entries d.shapes };
}

fn copied(alloc: Global, types: &[CTy]) -> Result<List<CTy>, OutOfMemory>
    ensures { IfOk result (λ copy. copy ≡ types.now) }
{
    let mut copy = List::new(alloc);
    for t in types {
        copy.push(*t)?;
    }
    Ok(copy)
}

fn types_of(alloc: Global, vars: &[CVar]) -> Result<List<CTy>, OutOfMemory>
    ensures { IfOk result (λ types. types ≡ map (λ v. v.ty) vars.now) }
{
    let mut types = List::new(alloc);
    for var in vars {
        types.push(var.ty)?;
    }
    Ok(types)
}

impl Shape {
    /// Of a declaration.
    pub fn of(alloc: Global, gives: CTy, params: &[CTy]) -> Result<Shape, OutOfMemory>
        ensures gives { IfOk result (λ shape. shape.gives ≡ gives) }
        ensures params { IfOk result (λ shape. shape.params ≡ params.now) }
    {
        Ok(Shape {
            gives,
            params: copied(alloc, params)?,
        })
    }

    /// Of a definition.
    pub fn of_function(alloc: Global, f: &CFun) -> Result<Shape, OutOfMemory>
        ensures { IfOk result (λ shape. signed f.now.name shape ≡ signature_of (defined (fun_of f.now))) }
    {
        Ok(Shape {
            gives: f.result,
            params: types_of(alloc, f.params.as_slice())?,
        })
    }
}

impl Declared {
    /// No signatures.
    pub fn new(alloc: Global) -> Declared
        ensures { result ≡ [] }
    {
        Declared {
            shapes: Named::new(alloc),
        }
    }

    /// The types of the function of a name.
    pub fn shape(&self, name: &[u8]) -> Option<&Shape>
        ensures { option_map (signed name.now) (option_copied result) ≡ signature_named self.now name.now }
    {
        self.shapes.get(name)
    }

    fn add(&mut self, name: &[u8], shape: Shape) -> Result<(), OutOfMemory>
        requires { signature_named self.old name.now ≡ None }
        ensures { OnOk result (self.new ≡ self.old ++ signed name.now shape ∷ []) }
    {
        self.shapes.add(name, shape)?;
        Ok(())
    }

    /// Adds a signature where its name is new.
    pub fn declare(&mut self, name: &[u8], shape: Shape) -> Result<(), OutOfMemory>
        ensures { OnOk result (self.new ≡ with_signature self.old (signed name.now shape)) }
    {
        if self.shape(name).is_some() {
            return Ok(());
        }
        self.add(name, shape)
    }
}
