use crate::tree::CBlock;
use scheme_data::Text;

/// The end of a block that a label stands behind.
#[derive(Drop, Debug)]
pub struct Stop {
    pub end: u64,
    pub label: Text,
}

/// How a block ends that begins further on in front: at a place, there with a label behind it, or where a second block begins.
#[derive(Drop, Debug)]
pub enum Closing {
    End(u64),
    Ended(Stop),
    Else(CBlock),
    Cleanup(CBlock),
}

/// The same of a block that isn't over.
#[derive(Clone, Copy, Debug)]
pub enum Around<'a> {
    End(u64),
    Ended(u64, &'a Text),
    Else(CBlock),
    Cleanup(CBlock),
}
