use scheme_data::{Datum, List, Place, Text};
use sqlite_items::{Boxed, Items};

/// The core forms of a module, in its order.
#[derive(Drop)]
pub struct Core {
    pub forms: List<CoreTop>,
}

/// A form at top level.
#[derive(Drop)]
pub enum CoreTop {
    /// A definition: its binder has the place of the form, and no mark.
    Define(Binder, CoreExpr),
    /// A definition of an inline, likewise; what it defines is a `lambda` form.
    DefineInline(Binder, CoreExpr),
    /// The place and the name of a `define-syntax`.
    Syntax(Place, Text),
    /// An expression.
    Form(CoreExpr),
}

/// A name where it is bound, with its mark, and the word of its type if one is written.
#[derive(Drop)]
pub struct Binder {
    pub at: Place,
    pub name: Text,
    pub mark: u32,
    pub ty: Option<Text>,
}

/// An expression of the core grammar, each with the place of its form (R5RS section 4.1).
#[derive(Drop)]
pub enum CoreExpr {
    /// A constant.
    Constant(Place, Datum),
    /// A quoted datum.
    Quote(Place, Datum),
    /// A name with its mark.
    Name(Place, Text, u32),
    /// The primitive `eqv?`, whatever the module calls so.
    PrimEqv(Place),
    /// A function: its parameters and body.
    Lambda(Place, Items<Binder>, Boxed<CoreExpr>),
    /// A condition with both arms.
    If(Place, Boxed<CoreExpr>, Boxed<CoreExpr>, Boxed<CoreExpr>),
    /// A condition with one arm.
    OneArmed(Place, Boxed<CoreExpr>, Boxed<CoreExpr>),
    /// An assignment to a name with its mark.
    Set(Place, Text, u32, Boxed<CoreExpr>),
    /// A sequence.
    Begin(Place, Items<CoreExpr>),
    /// Names, as many values, and a body.
    Let(Place, Items<Binder>, Items<CoreExpr>, Boxed<CoreExpr>),
    /// Names, as many functions, and a body.
    Letrec(Place, Items<Binder>, Items<CoreExpr>, Boxed<CoreExpr>),
    /// The name of an exit, and a body.
    BindExit(Place, Binder, Boxed<CoreExpr>),
    /// A form that is protected, and those that follow it however it is left.
    UnwindProtect(Place, Boxed<CoreExpr>, Items<CoreExpr>),
    /// An operator and its arguments.
    Call(Place, Boxed<CoreExpr>, Items<CoreExpr>),
}
