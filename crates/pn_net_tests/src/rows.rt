//! Worked examples of faults of ids and links, in nets as small documents spell them. Each function
//! does nothing; its contract is the example.

ghost use Rattle.std.specs.Prelude.{codes};
ghost use Rattle.pn_faults.specs.Order.{fault_at};
ghost use Rattle.pn_faults.specs.declared.reason.Reason.TheVariants as reasons;
ghost use Rattle.pn_net.specs.Links.{StandsInLinks};
ghost use Rattle.pn_net_tests.specs.Nets.{arc_between_places, places_of_one_id, references_in_a_ring};

/// An arc from a place to a reference that refers to another place has a wrong end.
pub fn arc_has_a_wrong_end()
    ensures { StandsInLinks arc_between_places (fault_at reasons.WrongEnd 201 (codes "u")) }
{}

/// Of two references that refer to each other the first is in a cycle.
pub fn references_have_a_cycle()
    ensures { StandsInLinks references_in_a_ring (fault_at reasons.ReferenceCycle 139 (codes "r")) }
{}

/// Of two places with one id the second has an id that was given before.
pub fn second_place_has_a_duplicate_id()
    ensures { StandsInLinks places_of_one_id (fault_at reasons.DuplicateId 208 (codes "a")) }
{}
