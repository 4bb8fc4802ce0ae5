ghost use Rattle.std.specs.Prelude.{◌≡◌};
ghost use Rattle.pn_operators.specs.Operators.{is_taken};

/// The kind of a net, by the `type` of its `net` element (ISO/IEC 15909-2).
#[derive(Clone, Copy, Debug, PartialEq, Eq)]
pub enum Kind {
    /// `ptnet`: place/transition nets.
    PtNet,
    /// `symmetricnet`: coloured nets with finite sorts.
    Symmetric,
    /// `highlevelnet`: high-level nets, with numbers, texts and lists.
    HighLevel,
}

impl Kind {
    /// Whether nets of this kind have the elements of sorts and terms of which the tables say that
    /// nets of the kind `from` are the first to have them. Place/transition nets have none. Takes no
    /// memory.
    pub fn has(self, from: Kind) -> bool
        ensures { result ≡ is_taken from self }
    {
        match (from, self) {
            (Kind::Symmetric, Kind::Symmetric) => true,
            (Kind::Symmetric, Kind::HighLevel) => true,
            (Kind::HighLevel, Kind::HighLevel) => true,
            _ => false,
        }
    }
}
