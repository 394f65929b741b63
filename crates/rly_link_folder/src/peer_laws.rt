//! The packets that a peer's neighbour gives, and the files of which it makes none: laws, functions with an empty body.

ghost use Rattle.std.specs.Prelude.{◌≡◌, ◌⊎◌, ◌≤◌, ◌+◌, List, Some, take, ℕ};
ghost use Rattle.rly_hop.specs.Spelling.{spelling};
ghost use Rattle.rly_link_folder.specs.Inbox.{custody_of, longest_of, reason_in};
ghost use Rattle.rly_link_folder.specs.declared.admission.Admission.{Admission};
ghost use Rattle.rly_link_folder.specs.PeerData.{IsNumbered};
ghost use Rattle.rly_link_folder.specs.PeerNeighbour.{GivesPacket, Peer, question};

use rly_folder::Folder;

/// Each packet that a neighbour gives is Data 0, or the Data of the number after the last one on its way, which is in
/// `sent/` durably, isn't in the station's custody, and isn't further from it than the window: with that whole file, behind
/// the destination of all files if there is one, and with the file's own age limit, or that of all files if it has none.
pub fn law_gives<F: Folder>(_folder: &F)
    ensures { (packet : List ℕ) (old new : Peer F) → custody_of old.inbox ≤ old.sent
        → GivesPacket F.state (Some packet) old new
        → (packet ≡ spelling (question old)) ⊎ IsNumbered F.state packet old new }
{}

/// The first bytes of a file, two more than the longest payload has, tell whether its datagram is refused and why: as the
/// whole file does.
pub fn law_judges()
    ensures { (rules : Admission) (file : List ℕ)
        → reason_in rules (take (longest_of rules + 2) file) ≡ reason_in rules file }
{}
