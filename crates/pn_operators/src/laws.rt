//! The laws of the table. A function here does nothing; its contract is the law.

ghost use Rattle.std.specs.Prelude.{◌≡◌};
ghost use Rattle.pn_operators.specs.Operators.{name_of};
ghost use Rattle.pn_operators.specs.declared.op.Op.{Op};

/// Names and operators are one to one: no two operators have one name.
pub fn names_are_one_to_one()
    ensures { (a b : Op) → name_of a ≡ name_of b → a ≡ b }
{}
