use std::fmt;

/// The arrays of tables of a plan.
#[derive(Clone, Copy, Debug, PartialEq, Eq)]
pub enum Row {
    /// `[[peer]]`
    Peer,
    /// `[[hop]]`
    Hop,
    /// `[[route]]`
    Route,
}

impl Row {
    ghost use Rattle.std.specs.Prelude.{◌≡◌};
    ghost use Rattle.rly_plan_syntax.specs.PathText.{row_text};

    /// The array's key.
    pub fn text(self) -> &'static str
        ensures text { result.now ≡ row_text self }
    {
        match self {
            Row::Peer => "peer",
            Row::Hop => "hop",
            Row::Route => "route",
        }
    }
}

/// The keys of a plan's tables.
#[derive(Clone, Copy, Debug, PartialEq, Eq)]
pub enum PlanKey {
    /// `id`
    Id,
    /// `station`
    Station,
    /// `listen`
    Listen,
    /// `remote`
    Remote,
    /// `key`
    Key,
    /// `resend`
    Resend,
    /// `rate`
    Rate,
    /// `lead`
    Lead,
    /// `contacts`
    Contacts,
    /// `destination`
    Destination,
    /// `hop`
    Hop,
    /// `folder`
    Folder,
    /// `limit`
    Limit,
    /// `most`
    Most,
}

impl PlanKey {
    ghost use Rattle.std.specs.Prelude.{◌≡◌};
    ghost use Rattle.rly_plan_syntax.specs.PathText.{key_text};

    /// The key as a plan writes it.
    pub fn text(self) -> &'static str
        ensures text { result.now ≡ key_text self }
    {
        match self {
            PlanKey::Id => "id",
            PlanKey::Station => "station",
            PlanKey::Listen => "listen",
            PlanKey::Remote => "remote",
            PlanKey::Key => "key",
            PlanKey::Resend => "resend",
            PlanKey::Rate => "rate",
            PlanKey::Lead => "lead",
            PlanKey::Contacts => "contacts",
            PlanKey::Destination => "destination",
            PlanKey::Hop => "hop",
            PlanKey::Folder => "folder",
            PlanKey::Limit => "limit",
            PlanKey::Most => "most",
        }
    }
}

/// A location within a table. It displays as the suffix to the table's own path.
#[derive(Clone, Copy, Debug, PartialEq, Eq)]
pub enum Spot {
    /// The table itself: the item isn't a table, or has a key that no table of a plan has.
    Whole,
    /// The value at a key.
    At(PlanKey),
    /// The contact of this number, counting from 1.
    Contact(u64),
}

impl fmt::Display for Spot {
    ghost use Rattle.std.specs.Prelude.{Some};
    ghost use Rattle.rly_plan_syntax.specs.PathText.{spot_text};

    ghost output = { λ spot. Some (spot_text spot) };

    fn fmt<W: fmt::Write>(&self, f: &mut fmt::Formatter<W>) -> fmt::Result {
        match self {
            Spot::Whole => Ok(()),
            Spot::At(key) => write!(f, ".{}", key.text()),
            Spot::Contact(number) => write!(f, ".contacts[{number}]"),
        }
    }
}

/// A line and a column of a text, both from 1. A column counts characters.
#[derive(Clone, Copy, Debug, PartialEq, Eq)]
pub struct Position {
    /// The line.
    pub line: u64,
    /// The column.
    pub column: u64,
}

/// The location of a fault in a plan. It displays as the path of a key, such as `hop[2].contacts[3]`, or as a line
/// and a column. Tables and contacts count from 1, in the file's order, as the ids do (`docs/FORMATS.md`, "The
/// plan").
#[derive(Clone, Copy, Debug, PartialEq, Eq)]
pub enum KeyPath {
    /// The position at which TOML refuses the text.
    Text(Position),
    /// The plan as a whole: it has an unknown key.
    Plan,
    /// The plan's own station.
    Station,
    /// An array of tables as a whole.
    Array(Row),
    /// A table of an array, by its number, and a location in it.
    In(Row, u64, Spot),
}

impl fmt::Display for KeyPath {
    ghost use Rattle.std.specs.Prelude.{Some};
    ghost use Rattle.rly_plan_syntax.specs.PathText.{place_text};

    ghost output = { λ place. Some (place_text place) };

    fn fmt<W: fmt::Write>(&self, f: &mut fmt::Formatter<W>) -> fmt::Result {
        match self {
            KeyPath::Text(position) => write!(
                f,
                "line {}, column {}",
                position.line, position.column
            ),
            KeyPath::Plan => f.write_str("the top"),
            KeyPath::Station => f.write_str("station"),
            KeyPath::Array(row) => f.write_str(row.text()),
            KeyPath::In(row, number, spot) => write!(f, "{}[{number}]{spot}", row.text()),
        }
    }
}
