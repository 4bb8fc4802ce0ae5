//! How far a sort reaches.

ghost use Rattle.std.specs.Prelude.{◌≡◌};
ghost use Rattle.pn_resolve.specs.Extents.{measured, beside, around};

use crate::{MAX_DEPTH, MAX_NODES};

/// How far a sort reaches. A sort that is deeper than `MAX_DEPTH`, or has more than `MAX_NODES`
/// nodes, is too big.
#[derive(Clone, Copy, Debug, PartialEq, Eq)]
pub enum Extent {
    NoSort,
    TooBig,
    Fits { depth: u32, nodes: u32 },
}

impl Extent {
    /// Of a sort of this depth and so many nodes.
    pub(crate) fn measured(depth: u64, nodes: u64) -> Extent
        ensures { result ≡ measured depth nodes }
    {
        if depth <= MAX_DEPTH as u64 && nodes <= MAX_NODES as u64 {
            Extent::Fits {
                depth: depth as u32,
                nodes: nodes as u32,
            }
        } else {
            Extent::TooBig
        }
    }

    /// Of two sorts side by side.
    pub(crate) fn beside(self, other: Extent) -> Extent
        ensures { result ≡ beside self other }
    {
        match (self, other) {
            (Extent::NoSort, _) | (_, Extent::NoSort) => Extent::NoSort,
            (Extent::TooBig, _) | (_, Extent::TooBig) => Extent::TooBig,
            (
                Extent::Fits { depth, nodes },
                Extent::Fits {
                    depth: other_depth,
                    nodes: other_nodes,
                },
            ) => Extent::measured(
                depth.max(other_depth) as u64,
                nodes as u64 + other_nodes as u64,
            ),
        }
    }

    /// Of a product or list of what has this extent.
    pub(crate) fn around(self) -> Extent
        ensures { result ≡ around self }
    {
        match self {
            Extent::NoSort => Extent::NoSort,
            Extent::TooBig => Extent::TooBig,
            Extent::Fits { depth, nodes } => Extent::measured(depth as u64 + 1, nodes as u64 + 1),
        }
    }
}
