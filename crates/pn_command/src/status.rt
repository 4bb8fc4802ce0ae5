ghost use Rattle.std.specs.Prelude.{◌≡◌};

/// How a call of the program ends; `number` gives the program's exit status for each.
#[derive(Clone, Copy, Debug, PartialEq, Eq)]
pub enum Status {
    /// The answer is written.
    Done,
    /// The input is refused.
    Refused,
    /// The words ask for nothing.
    Usage,
    /// A read failed.
    ReadFault,
    /// A write failed.
    WriteFault,
    /// Memory was wanted and not there.
    OutOfMemory,
    /// A limit is passed.
    Limit,
}

impl Status {
    /// The number with which the program exits.
    pub fn number(self) -> u8
        ensures done { self ≡ Status.Done → result ≡ 0 }
        ensures refused { self ≡ Status.Refused → result ≡ 1 }
        ensures usage { self ≡ Status.Usage → result ≡ 2 }
        ensures read_fault { self ≡ Status.ReadFault → result ≡ 3 }
        ensures write_fault { self ≡ Status.WriteFault → result ≡ 4 }
        ensures out_of_memory { self ≡ Status.OutOfMemory → result ≡ 5 }
        ensures limit { self ≡ Status.Limit → result ≡ 6 }
    {
        match self {
            Status::Done => 0,
            Status::Refused => 1,
            Status::Usage => 2,
            Status::ReadFault => 3,
            Status::WriteFault => 4,
            Status::OutOfMemory => 5,
            Status::Limit => 6,
        }
    }
}
