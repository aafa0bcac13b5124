// The functions that a module may call: its own, and those of other modules that it uses.
ghost use Rattle.std.specs.Prelude.{◌≡◌, [], ◌∷◌, ◌++◌, map, IfOk, OnOk, Some};
ghost use Rattle.core_tree.specs.declared.tree.GlobalRef.TheVariants.{Own, Used};
ghost use Rattle.core_tree.specs.Tree.{module_tree, functions_in, own_callee, row_callee, callee_of};
ghost use Rattle.core_tree.specs.WellFormed.{IsFound};
ghost use Rattle.plan_rules.specs.Translation.{c_name_of};
ghost use Rattle.code_gen.specs.Callees.{callee_in, function_of};

use c_tree::function_name_text;
use core_tree::{GlobalRef, Lambda, Module, Top, Use};
use iface_text::{Row, RowKind};
use scheme_data::{List, OutOfMemory, Text};
use std::alloc::Global;
use std::marker::Model;

/// What a call names: a function of a module, and how many parameters it has.
#[derive(Clone, Copy)]
pub struct Called<'a> {
    pub module_name: &'a Text,
    pub name: &'a Text,
    pub params: usize,
}

impl<'a> Called<'a> {
    /// A function of another module, by its row there.
    pub fn of_row(module_name: &'a Text, row: &'a Row) -> Called<'a>
        ensures { callee_in result ≡ row_callee module_name.now row.now }
    {
        let RowKind::Fun(params, _) = &row.kind;
        Called {
            module_name,
            name: &row.name,
            params: params.as_slice().len(),
        }
    }

    /// The name of its C function.
    pub fn c_name(&self, alloc: Global) -> Result<Text, OutOfMemory>
        ensures { IfOk result (λ name. name ≡ c_name_of (callee_in self.now)) }
    {
        function_name_text(alloc, self.module_name.as_bytes(), self.name.as_bytes())
    }
}

/// A function of the module itself.
#[derive(Clone, Copy)]
pub struct OwnFunction<'a> {
    pub name: &'a Text,
    pub lambda: &'a Lambda,
}

// A function goes behind those before it.
fn add_function<'a>(own: &mut List<OwnFunction<'a>>, top: &'a Top) -> Result<(), OutOfMemory>
    ensures { OnOk result (map function_of own.new ≡ map function_of own.old ++ functions_in (top.now ∷ [])) }
{
    match top {
        Top::Function(name, lambda) => own.push(OwnFunction { name, lambda }),
        Top::Form(_) => Ok(()),
    }
}

/// A module, and its functions in source order.
#[derive(Drop)]
pub struct Functions<'a> {
    in_module: &'a Module,
    own: List<OwnFunction<'a>>,
}

impl<'a> Model for Functions<'a> {
    ghost use Rattle.std.specs.Prelude.{◌≡◌, map};
    ghost use Rattle.core_tree.specs.declared.tree.Module.{Module};
    ghost use Rattle.core_tree.specs.contracts.tree.Module as the_module;
    ghost use Rattle.core_tree.specs.Tree.{functions_in};
    ghost use Rattle.code_gen.specs.Callees.{function_of};

    ghost Value = { Module };

    ghost coded = { the_module.the_row.coded };

    ghost view = { λ f. f.in_module.now };

    ghost invariant = { λ f. map function_of f.own ≡ functions_in f.in_module.now.tops };
}

impl<'a> Functions<'a> {
    /// The functions of a module.
    pub fn new(alloc: Global, in_module: &'a Module) -> Result<Functions<'a>, OutOfMemory>
        ensures { IfOk result (λ f. f ≡ in_module.now) }
    {
        let mut own = List::new(alloc);
        for top in in_module.tops.as_slice() {
            add_function(&mut own, top)?;
        }
        Ok(Functions { in_module, own })
    }

    /// The module.
    pub fn in_module(&self) -> &Module
        ensures { result.now ≡ self.now }
    {
        self.in_module
    }

    /// Those of the module itself.
    pub fn own(&self) -> &[OwnFunction<'a>]
        ensures { map function_of result.now ≡ functions_in self.now.tops }
    {
        self.own.as_slice()
    }

    /// What a call of a function of the module itself names.
    pub fn called(&self, function: &'a OwnFunction<'a>) -> Called<'_>
        ensures { callee_in result ≡ own_callee self.now.name (function_of function.now) }
    {
        Called {
            module_name: &self.in_module.name,
            name: function.name,
            params: function.lambda.params.as_slice().len(),
        }
    }

    // A function of the module itself, by its number.
    fn own_at(&self, n: u32) -> Called<'_>
        requires { IsFound (callee_of (module_tree self.now) (Own n)) }
        ensures { callee_of (module_tree self.now) (Own n) ≡ Some (callee_in result) }
    {
        self.called(&self.own.as_slice()[n as usize])
    }

    // A function of another module, by its place in the uses.
    fn used_at(&self, n: u32) -> Called<'_>
        requires { IsFound (callee_of (module_tree self.now) (Used n)) }
        ensures { callee_of (module_tree self.now) (Used n) ≡ Some (callee_in result) }
    {
        match &self.in_module.uses.as_slice()[n as usize] {
            Use::From(module_name, row) => Called::of_row(module_name, row),
            Use::Need(_, _) => unreachable!(),
        }
    }

    /// The function that is called.
    pub fn callee(&self, g: GlobalRef) -> Called<'_>
        requires { IsFound (callee_of (module_tree self.now) g) }
        ensures { callee_of (module_tree self.now) g ≡ Some (callee_in result) }
    {
        match g {
            GlobalRef::Own(n) => self.own_at(n),
            GlobalRef::Used(n) => self.used_at(n),
        }
    }
}
