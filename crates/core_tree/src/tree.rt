use built_table::Primitive;
use iface_text::Row;
use scheme_data::{List, Text, TextList};
use sqlite_items::{Boxed, Items};

/// The number of a local variable in its module.
#[derive(Clone, Copy, Debug, PartialEq, Eq)]
pub struct VarId(pub u32);

/// A constant.
#[derive(Clone, Copy, Debug, PartialEq, Eq)]
pub enum Const {
    Int(i64),
    Bool(bool),
}

/// A function that is called by its name.
#[derive(Clone, Copy, Debug, PartialEq, Eq)]
pub enum GlobalRef {
    /// A function of this module, by its number among its functions in source order from 0.
    Own(u32),
    /// A function of another module, by its place in the uses of this one from 0.
    Used(u32),
}

/// An expression. The parts of an `if` are its test, what is evaluated where the test isn't `#f`, and what is where it is. A sequence has at least one part, and its value is that of the last.
#[derive(Drop)]
pub enum Node {
    Constant(Const),
    Variable(VarId),
    If(Boxed<Node>, Boxed<Node>, Boxed<Node>),
    Sequence(Items<Node>),
    Call(GlobalRef, Items<Node>),
    Primitive(Primitive, Items<Node>),
}

/// A procedure: its parameters and its body.
#[derive(Drop)]
pub struct Lambda {
    pub params: List<VarId>,
    pub body: Node,
}

/// A top-level form: the definition of a function, or an expression that is evaluated when the module is initialised.
#[derive(Drop)]
pub enum Top {
    Function(Text, Lambda),
    Form(Node),
}

/// An item of an `import` clause: a module, and the names that are imported from it.
#[derive(Drop)]
pub struct ImportItem {
    pub module_name: Text,
    pub names: TextList,
}

/// What a module takes from another one, whose name comes first: a row of the interface with which it was compiled.
#[derive(Drop)]
pub enum Use {
    /// A function that it calls.
    From(Text, Row),
    /// A function that it imports and doesn't call.
    Need(Text, Row),
}

/// A module: its name, its import items in clause order, its top-level forms in source order, what it takes from other modules (what it calls, in order of first use, and then what it imports besides), the rows of what it exports in clause order, and the name of its main function, if it has one.
#[derive(Drop)]
pub struct Module {
    pub name: Text,
    pub imports: List<ImportItem>,
    pub tops: List<Top>,
    pub uses: List<Use>,
    pub exports: List<Row>,
    pub main: Option<Text>,
}
