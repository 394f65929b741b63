// The state of the neighbour station of a peer, played by a folder.
ghost use Rattle.std.specs.Prelude.{◌≡◌};
ghost use Rattle.rly_link_folder.specs.PeerNeighbour.{is_for_good, phase_covered};

/// The state of a peer's neighbour.
#[derive(Clone, Copy, Debug, PartialEq, Eq, Drop)]
pub enum Phase {
    /// A call of the folder failed, or a file with a number was gone. It asks for the station's last number after the next
    /// `again`.
    Failed,
    /// It asks for the station's last number next.
    Asking,
    /// It waits for the answer.
    Asked,
    /// Data 0 was refused, by the refusal of this number (2: the station has no route to the destination in it), and nothing
    /// is given: until it asks again after the next `again`, or for ever if the refusal is for good (2, 3 or 5).
    QuestionRefused {
        refusal: u8,
    },
    /// The folder is open.
    Serving,
    /// The files of `sent/` don't go on from the station's last number, `custody`: nothing is given or removed. `least` and
    /// `greatest` are the numbers of the first file of `sent/` and of the last one.
    Apart {
        custody: u64,
        least: u64,
        greatest: u64,
    },
    /// The Data of this number was refused, by the refusal of this number, and nothing is given: until that number is in
    /// the station's custody, or until the next `again` if the refusal isn't for good (2, 3 or 5).
    Refused {
        number: u64,
        refusal: u8,
    },
}

/// The state after a Custody that goes on.
pub(crate) fn phase_covered(phase: Phase, custody: u64) -> Phase
    ensures { result ≡ phase_covered phase custody }
{
    match phase {
        Phase::Refused { number, .. } if number <= custody => Phase::Serving,
        _ => phase,
    }
}

/// Whether a refusal lasts until the plan changes: no route, a moment out of range, too long.
pub fn is_for_good(refusal: u8) -> bool
    ensures { result ≡ is_for_good refusal }
{
    matches!(refusal, 2 | 3 | 5)
}
