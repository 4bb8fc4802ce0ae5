use pn_terms::Term;

/// A part of the condition's outermost `and`, with the number of variables, the first ones of the
/// transition, that it needs.
#[derive(Drop)]
pub struct Part<'a> {
    pub term: &'a Term,
    pub need: usize,
}

/// An arc, by its number, with the number of variables that its inscription needs.
#[derive(Clone, Copy)]
pub struct ArcPart {
    pub number: u32,
    pub need: usize,
}
