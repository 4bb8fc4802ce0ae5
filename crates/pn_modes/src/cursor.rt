use pn_net::Mode;
use sqlite_items::Items;

/// Where a search stands.
///
/// `front` has the values of the first variables, and `places` says where each stands in its
/// carrier. Where the front is fresh, what begins with it is still to be tried.
#[derive(Drop)]
pub struct Cursor {
    pub places: Items<u64>,
    pub front: Mode,
    pub fresh: bool,
}
