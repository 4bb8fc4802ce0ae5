ghost use Rattle.std.specs.Prelude.{◌≡◌, ◌↔◌, Some};
ghost use Rattle.pn_operators.specs.Operators.{name_of, IsTaken};
ghost use Rattle.pn_operators.specs.Rows.{found_in, IsTable, TellsOf};
ghost use Rattle.pn_operators.specs.declared.op.Op.{Op};

use crate::{Kind, Op, OpRow};

/// The operator of the table whose element has this name, where nets of this kind have it. Takes
/// no memory.
pub fn find_in(table: &[OpRow], name: &str, kind: Kind) -> Option<Op>
    requires { IsTable table.now }
    ensures { (o : Op) → (result ≡ Some o) ↔ ((name_of o ≡ name.now) × IsTaken o kind) }
{
    first_found(table, name, kind)
}

/// The operator of the first row that has this name and is taken in this kind of nets.
fn first_found(rows: &[OpRow], name: &str, kind: Kind) -> Option<Op>
    ensures { result ≡ found_in name.now kind rows.now }
{
    for row in rows {
        if row.name == name && kind.has(row.from) {
            return Some(row.op);
        }
    }
    None
}

/// The row of the table that tells of this operator. Takes no memory.
pub fn row_in(table: &[OpRow], op: Op) -> OpRow
    requires { IsTable table.now }
    ensures operator { result.op ≡ op }
    ensures tells { TellsOf result }
{
    table[op as usize]
}
