ghost use Rattle.std.specs.Prelude.{◌≡◌, ◌↔◌, Some};
ghost use Rattle.pn_operators.specs.Operators.{name_of, IsTaken};
ghost use Rattle.pn_operators.specs.Rows.{TellsOf};
ghost use Rattle.pn_operators.specs.declared.op.Op.{Op};

use crate::search::{find_in, row_in};
use crate::{Kind, Op, OpRow, with_rows};

macro_rules! as_table {
    (; $($op:ident $name:literal $from:ident $least:literal $most:tt $rule:ident($($family:ident)?)),*) => {
        [$(OpRow { op: Op::$op, name: $name, from: Kind::$from, least: $least, most: $most }),*]
    };
}

macro_rules! as_names {
    ($value:expr; $($op:ident $name:literal $from:ident $least:literal $most:tt $rule:ident($($family:ident)?)),*) => {
        match $value { $(Op::$op => $name),* }
    };
}

/// The operators in their order, with all that is said of each in one row.
pub const OP_TABLE: [OpRow; 42] = with_rows!(as_table);

/// The operator whose element has this name, where nets of this kind have it. Takes no memory.
///
/// It compares the name with those of the rows in turn: `==` of texts looks at the lengths first, and
/// then at the first four bytes, so that few names are compared whole.
pub fn find_op(name: &str, kind: Kind) -> Option<Op>
    ensures { (o : Op) → (result ≡ Some o) ↔ ((name_of o ≡ name.now) × IsTaken o kind) }
{
    find_in(&OP_TABLE, name, kind)
}

/// The name of the operator's element. Takes no memory.
pub fn op_name(op: Op) -> &'static str
    ensures { result.now ≡ name_of op }
{
    with_rows!(as_names, op)
}

/// The operator's row of the table. Takes no memory.
pub fn row_of(op: Op) -> OpRow
    ensures operator { result.op ≡ op }
    ensures tells { TellsOf result }
{
    row_in(&OP_TABLE, op)
}
