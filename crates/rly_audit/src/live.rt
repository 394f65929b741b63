//! Counts the live datagrams of a journal.

ghost use Rattle.std.specs.Prelude.{◌≡◌, false};
ghost use Rattle.rly_machine.specs.State.{live_items};

use rly_core::HopId;
use rly_disk::Disk;
use rly_journal::Journal;
use rly_machine::Reply;

/// The number of live datagrams in a journal that isn't broken.
pub fn live_items<D: Disk>(journal: &Journal<D>) -> u64
    requires { journal.now.broken ≡ false }
    ensures { result ≡ live_items journal.now.state }
{
    journal.law_sound();
    let mut live = 0;
    for index in 0..journal.params().hops as u16 {
        let Reply::Shown(status) = journal.ask_show(HopId(index + 1)) else {
            unreachable!()
        };
        live += status.queued + status.flight;
    }
    live
}
