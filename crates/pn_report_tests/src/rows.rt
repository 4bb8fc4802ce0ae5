//! Worked examples of lines, by their definitions. Each function does nothing; its contract is the
//! example.

ghost use Rattle.std.specs.Prelude.{◌≡◌, ℕ, List, [], codes, length};
ghost use Rattle.pn_bag.specs.Copies.{total_of};
ghost use Rattle.pn_faults.specs.Order.{fault_at};
ghost use Rattle.pn_faults.specs.declared.reason.Reason.TheVariants as reasons;
ghost use Rattle.pn_net.specs.declared.flat.Flat.{Flat};
ghost use Rattle.pn_net.specs.declared.token.Token.{Token};
ghost use Rattle.pn_operators.specs.declared.kind.Kind.TheVariants as kinds;
ghost use Rattle.pn_lines.specs.Escapes.{escaped};
ghost use Rattle.pn_report.specs.Lines.{fault_line};
ghost use Rattle.pn_report.specs.Summaries.{summary_line};

/// The root of a document is no element of a net.
pub fn unknown_element_has_its_line()
    ensures { fault_line (fault_at reasons.UnknownElement 0 (codes "a")) ≡ codes "pnml: byte 0: unknown element: a\n" }
{}

/// A fault about nothing leaves the space at the end.
pub fn empty_detail_has_its_line()
    ensures { fault_line (fault_at reasons.UnknownEnd 7 []) ≡ codes "pnml: byte 7: unknown end: \n" }
{}

/// White space, `%` and brackets are escaped, letters past ASCII are not.
pub fn text_is_escaped()
    ensures { escaped (codes "a b%é[\n~.") ≡ codes "a%20b%25é%5B%0A%7E." }
{}

/// A place/transition net of two places, one transition and two arcs, which begins with three tokens.
pub fn net_has_its_line()
    ensures { (f : Flat) (initial : List (Token × ℕ)) → f.kind ≡ kinds.PtNet → length f.places ≡ 2 → length f.transitions ≡ 1 → length f.arcs ≡ 2
        → total_of initial ≡ 3 → summary_line f initial ≡ codes "ptnet places 2 transitions 1 arcs 2 tokens 3\n" }
{}

/// A symmetric net of three places, two transitions and six arcs, which begins with nine tokens.
pub fn symmetric_net_has_its_line()
    ensures { (f : Flat) (initial : List (Token × ℕ)) → f.kind ≡ kinds.Symmetric → length f.places ≡ 3 → length f.transitions ≡ 2 → length f.arcs ≡ 6
        → total_of initial ≡ 9 → summary_line f initial ≡ codes "symmetricnet places 3 transitions 2 arcs 6 tokens 9\n" }
{}

/// A high-level net in which nothing stands.
pub fn empty_net_has_its_line()
    ensures { (f : Flat) → f.kind ≡ kinds.HighLevel → length f.places ≡ 0 → length f.transitions ≡ 0 → length f.arcs ≡ 0
        → summary_line f [] ≡ codes "highlevelnet places 0 transitions 0 arcs 0 tokens 0\n" }
{}
