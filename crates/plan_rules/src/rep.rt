/// How a value is held: as a word, as a number in a C `long`, or as a truth value in a C `int`, where 1 is true and 0 is false.
#[derive(Clone, Copy, Debug, PartialEq, Eq)]
pub enum Rep {
    Obj,
    Long,
    Bool,
}
