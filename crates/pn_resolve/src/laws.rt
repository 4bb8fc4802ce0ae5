//! Laws of sorts as a document writes them. Each function does nothing; its contract is the law.

ghost use Rattle.std.specs.Prelude.{◌≡◌, List, map};
ghost use Rattle.pn_resolve.specs.Meaning.{Resolves};
ghost use Rattle.pn_resolve.specs.Naming.{NamesDeclared};
ghost use Rattle.pn_syntax.specs.Offsets.{declaration_without_offsets, sort_without_offsets};
ghost use Rattle.pn_syntax.specs.declared.declaration.Declaration.{Declaration};
ghost use Rattle.pn_syntax.specs.declared.sort_expr.SortExpr.{SortExpr};
ghost use Rattle.pn_values.specs.declared.sort.Sort.{Sort};

use crate::{MAX_DEPTH, MAX_NODES};

/// The limits of a resolved sort as numbers.
pub fn limits_as_numbers()
    ensures depth { MAX_DEPTH ≡ 32 }
    ensures nodes { MAX_NODES ≡ 4096 }
{}

/// Expressions that are equal but for their offsets have the same sort, in declarations that are
/// equal but for theirs.
pub fn offsets_change_no_sort()
    ensures { (items others : List Declaration) (one other : SortExpr) (sort : Sort)
        → map declaration_without_offsets items ≡ map declaration_without_offsets others
        → sort_without_offsets one ≡ sort_without_offsets other
        → Resolves items one sort → Resolves others other sort }
{}

/// A sort that an expression writes names enumerations and partitions of the declarations only.
pub fn resolved_sorts_name_declared()
    ensures { (items : List Declaration) (expr : SortExpr) (sort : Sort) → Resolves items expr sort
        → NamesDeclared items sort }
{}
