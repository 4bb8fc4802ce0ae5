use pn_net::Mode;

/// What one step of a search did.
#[derive(Drop)]
pub(crate) enum Step {
    Found(Mode),
    Moved,
    Done,
}
