// The trait of a disk, with its ghost state for contracts.
ghost use Rattle.std.specs.Prelude.{◌≡◌, ◌≤◌, ◌+◌, ◌∷◌, [], length, OnOk, is_ok, slice_range};
ghost use Rattle.rly_disk.specs.DiskModel.{DiskState, Consistent};
ghost use Rattle.rly_disk.specs.Trace.{Makes, Read, Sync, Write};

/// A call of a disk failed. The call's contract states what it left.
#[derive(Clone, Copy, Debug, PartialEq, Eq, Drop)]
pub struct DiskFault;

/// One device of fixed size, whose calls may fail (docs/reference/DEFINITIONS.md, "The disk model"). Offsets and sizes are in
/// bytes.
///
/// Clauses about results and counters hold for any disk, so a disk over a real file can meet them. Clauses about bytes
/// and crashes have the premise that the disk is honest (it keeps to the model); no call changes whether it is.
pub trait Disk {
    /// The disk's state in contracts.
    ghost state: { Self → DiskState };

    /// Returns its size in bytes.
    fn size(&self) -> u64
        ensures { result ≡ (state self.now).size };

    /// Fills the buffer with the bytes at offset `place`. A read changes nothing. After an `Err` the buffer may hold
    /// anything.
    fn read_at(&mut self, place: u64, buffer: &mut [u8]) -> Result<(), DiskFault>
        requires { place + length buffer.old ≤ (state self.old).size }
        ensures bytes { (state self.old).honest
            → OnOk result (buffer.new ≡ slice_range (state self.old).seen place (place + length buffer.old)) }
        ensures trace { Makes state (Read place (length buffer.old) ∷ []) (is_ok result) self.old self.new };

    /// Writes the bytes at offset `place`. Until a sync succeeds a crash may leave any bytes there, after an `Err` too;
    /// after an `Err` a read may also return any bytes there. All other bytes are unchanged.
    fn write_at(&mut self, place: u64, bytes: &[u8]) -> Result<(), DiskFault>
        requires { place + length bytes.now ≤ (state self.old).size }
        ensures trace { Makes state (Write place bytes.now ∷ []) (is_ok result) self.old self.new };

    /// Makes all writes durable: after an `Ok` a crash leaves the bytes that a read returns. After an `Err` the same
    /// writes are pending as before.
    fn sync(&mut self) -> Result<(), DiskFault>
        ensures trace { Makes state (Sync ∷ []) (is_ok result) self.old self.new };

    /// Returns the number of failed calls of `read_at`, `write_at` and `sync`. This counter and the next three are for
    /// tests: they have 64 bits, and once the number of calls has its maximum value, each call fails and changes
    /// nothing.
    fn failures(&self) -> u64
        ensures { result ≡ (state self.now).failures };

    /// Returns the number of calls of `read_at`, `write_at` and `sync`.
    fn calls(&self) -> u64
        ensures { result ≡ (state self.now).calls };

    /// Returns the number of calls of `sync`, failed ones too.
    fn syncs(&self) -> u64
        ensures { result ≡ (state self.now).syncs };

    /// Returns the number of failed reads.
    fn failed_reads(&self) -> u64
        ensures { result ≡ (state self.now).failed_reads };

    /// The invariant of an honest disk.
    ghost consistent: { (disk : Self) → (state disk).honest → Consistent (state disk) };

    /// No counter is above the number of calls.
    ghost calls_lead: { (disk : Self)
        → ((state disk).failures ≤ (state disk).calls) × ((state disk).syncs ≤ (state disk).calls)
        × ((state disk).failed_reads ≤ (state disk).failures) };
}
