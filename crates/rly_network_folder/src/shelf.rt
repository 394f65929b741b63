ghost use Rattle.std.specs.Prelude.{◌≡◌, Option, List, OnErr, OnOk, IfOk, option_map};
ghost use Rattle.rly_network_folder.specs.ShelfCalls.{Calls, Looked, Made, Replaced, ShelfCall};

use crate::shelf_fault::ShelfFault;

/// Where files lie by their paths. Each call that succeeds is one event in contracts, if the shelf tells its calls.
pub trait Shelf {
    /// The calls that succeeded, in their order.
    ghost calls: { Self → Option (List ShelfCall) };

    /// Returns a file's bytes; `None` if it isn't there.
    fn look(&mut self, path: &str) -> Result<Option<Vec<u8>>, ShelfFault>
        ensures called { IfOk result (λ found.
            Calls (calls self.old) (calls self.new) (Looked path.now (option_map (λ v. v.items) found))) }
        ensures failed { OnErr result (calls self.new ≡ calls self.old) };

    /// Puts a file in the place of the one that may be there, in one step, durably. After an `Err` it may be there.
    fn replace(&mut self, path: &str, bytes: &[u8]) -> Result<(), ShelfFault>
        ensures called { OnOk result (Calls (calls self.old) (calls self.new) (Replaced path.now bytes.now)) }
        ensures failed { OnErr result (calls self.new ≡ calls self.old) };

    /// Makes a file that only its owner may read, durably. `Err`, and the file is as it was, if there is one.
    fn make(&mut self, path: &str, bytes: &[u8]) -> Result<(), ShelfFault>
        ensures called { OnOk result (Calls (calls self.old) (calls self.new) (Made path.now bytes.now)) }
        ensures failed { OnErr result (calls self.new ≡ calls self.old) };
}
