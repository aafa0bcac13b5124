ghost use Rattle.std.specs.Prelude.{◌≡◌};
ghost use Rattle.prim_table.specs.Errors.{number_of};

/// What an error is about.
#[derive(Clone, Copy, Debug, PartialEq, Eq)]
pub enum ErrCode {
    /// A value isn't of the type that is asked.
    WrongType,
    /// A procedure has another number of parameters.
    ArgumentCount,
    /// A number is outside its range.
    Range,
    /// An index or a size is outside its bounds.
    Index,
    /// A variable is used before it has a value.
    Unset,
    /// What is called isn't a procedure.
    NotProcedure,
    /// The extent of an exit has ended.
    DeadExit,
    /// The program raised it by `error`.
    User,
    /// A value is too large to print.
    PrintLimit,
    ZeroDivisor,
}

impl ErrCode {
    /// The number in error lines and in C texts, from 1 to 10.
    pub fn number(self) -> u8
        ensures { result ≡ number_of self }
    {
        self as u8 + 1
    }
}
