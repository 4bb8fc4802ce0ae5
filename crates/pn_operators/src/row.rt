use crate::{Kind, Op};

/// A row of the table of operators.
#[derive(Clone, Copy, Debug)]
pub struct OpRow {
    pub op: Op,
    /// The name of its element.
    pub name: &'static str,
    /// The first kind of nets that has it.
    pub from: Kind,
    /// The least number of arguments.
    pub least: usize,
    /// The greatest number of arguments, where there is one.
    pub most: Option<usize>,
}
