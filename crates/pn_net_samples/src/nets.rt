//! Worked nets, whole.

/// Place `a` with three tokens, an arc to `t`, and one on to `b`.
pub const CHAIN: &str =
    r#"<pnml xmlns="http://www.pnml.org/version-2009/grammar/pnml"><net id="n" type="http://www.pnml.org/version-2009/grammar/ptnet"><page id="g"><place id="a"><initialMarking><text>3</text></initialMarking></place><place id="b"/><transition id="t"/><arc id="u" source="a" target="t"/><arc id="v" source="t" target="b"/></page></net></pnml>"#;

/// Place `b` with as many tokens as a multiset may have, `t` with an arc to it, and `o` with none.
pub const FULL: &str =
    r#"<pnml xmlns="http://www.pnml.org/version-2009/grammar/pnml"><net id="n" type="http://www.pnml.org/version-2009/grammar/ptnet"><page id="g"><place id="b"><initialMarking><text>9223372036854775807</text></initialMarking></place><transition id="t"/><transition id="o"/><arc id="v" source="t" target="b"/></page></net></pnml>"#;

/// Place `p` with the token 5, from which `t` takes x and puts x times x.
pub const SQUARE: &str =
    r#"<pnml xmlns="http://www.pnml.org/version-2009/grammar/pnml"><net id="n" type="http://www.pnml.org/version-2009/grammar/highlevelnet"><declaration><structure><declarations><variabledecl id="x"><integer/></variabledecl></declarations></structure></declaration><page id="g"><place id="p"><type><structure><integer/></structure></type><hlinitialMarking><structure><numberconstant value="5"><integer/></numberconstant></structure></hlinitialMarking></place><transition id="t"/><arc id="u" source="p" target="t"><hlinscription><structure><variable refvariable="x"/></structure></hlinscription></arc><arc id="v" source="t" target="p"><hlinscription><structure><mult><subterm><variable refvariable="x"/></subterm><subterm><variable refvariable="x"/></subterm></mult></structure></hlinscription></arc></page></net></pnml>"#;

/// Place `fork` with c1 to c5 in a ring, from which `take` takes x and the one behind it.
pub const FORKS: &str =
    r#"<pnml xmlns="http://www.pnml.org/version-2009/grammar/pnml"><net id="n" type="http://www.pnml.org/version-2009/grammar/symmetricnet"><declaration><structure><declarations><namedsort id="P"><cyclicenumeration><feconstant id="c1"/><feconstant id="c2"/><feconstant id="c3"/><feconstant id="c4"/><feconstant id="c5"/></cyclicenumeration></namedsort><variabledecl id="x"><usersort declaration="P"/></variabledecl></declarations></structure></declaration><page id="g"><place id="fork"><type><structure><usersort declaration="P"/></structure></type><hlinitialMarking><structure><all><usersort declaration="P"/></all></structure></hlinitialMarking></place><transition id="take"/><arc id="u" source="fork" target="take"><hlinscription><structure><add><subterm><numberof><subterm><numberconstant value="1"><positive/></numberconstant></subterm><subterm><variable refvariable="x"/></subterm></numberof></subterm><subterm><numberof><subterm><numberconstant value="1"><positive/></numberconstant></subterm><subterm><successor><subterm><variable refvariable="x"/></subterm></successor></subterm></numberof></subterm></add></structure></hlinscription></arc></page></net></pnml>"#;
