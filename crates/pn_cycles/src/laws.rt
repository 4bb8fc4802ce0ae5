//! Laws of ways in a graph. Each function does nothing; its contract is the law.

ghost use Rattle.std.specs.Prelude.{ℕ, ◌<◌, List, length};
ghost use Rattle.pn_cycles.specs.Graphs.{IsWhole, Leads};

/// One way after another is a way.
pub fn leads_on()
    ensures { (edges : List (List ℕ)) (first second third : ℕ) → Leads edges first second
        → Leads edges second third → Leads edges first third }
{}

/// A way starts at a node of the graph, and ends at one where the graph is whole.
pub fn leads_within()
    ensures start { (edges : List (List ℕ)) (start end : ℕ) → Leads edges start end
        → start < length edges }
    ensures end { (edges : List (List ℕ)) (start end : ℕ) → IsWhole edges → Leads edges start end
        → end < length edges }
{}
