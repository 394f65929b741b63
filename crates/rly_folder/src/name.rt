// The names of a folder's files.
ghost use Rattle.std.specs.Prelude.{◌≡◌};
ghost use Rattle.rly_folder.specs.Names.{area_number, is_same_name};

/// Which files a name stands for.
#[derive(Clone, Copy, Debug, PartialEq, Eq, Drop)]
pub enum Area {
    /// The files of `new/`: a writer put them in, the station hasn't numbered them. The numbers are an order.
    New,
    /// The files of `sent/`, under the sequence numbers that the link gave them.
    Sent,
    /// The files of `refused/` for whose destination the plan has no route. The numbers are an order.
    NoRoute,
    /// Those that are longer than a payload of the spool.
    TooLong,
    /// Those that are too short to hold a destination.
    TooShort,
    /// The files handed out, under the sequence numbers of their datagrams.
    Out,
    /// Hidden files of no bytes: their greatest number is the last sequence number handed out.
    Kept,
    /// Hidden files of no bytes of the reader: their greatest number is that of the last file that it handed on.
    Printed,
}

/// The name of a file: its area and a number, 20 digits in a real folder.
#[derive(Clone, Copy, Debug, PartialEq, Eq, Drop)]
pub struct Name {
    pub area: Area,
    pub number: u64,
}

impl Area {
    fn number(self) -> u8
        ensures { result ≡ area_number self }
    {
        match self {
            Area::New => 0,
            Area::Sent => 1,
            Area::NoRoute => 2,
            Area::TooLong => 3,
            Area::TooShort => 4,
            Area::Out => 5,
            Area::Kept => 6,
            Area::Printed => 7,
        }
    }
}

impl Name {
    /// Returns true iff both are the same name.
    pub fn is(self, other: Name) -> bool
        ensures { result ≡ is_same_name self other }
    {
        self.area.number() == other.area.number() && self.number == other.number
    }
}
