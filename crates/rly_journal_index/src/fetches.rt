//! The replies of a spool of device addresses to queries.

ghost use Rattle.std.specs.Prelude.{◌≡◌, List, Ok, Err, length, ℕ};
ghost use Rattle.rly_core.specs.declared.ids.HopId.{HopId};
ghost use Rattle.rly_core.specs.declared.refusal.Refusal.{Refusal};
ghost use Rattle.rly_machine.specs.Query.{fetch_reply, item_of, show_reply, window_reply};
ghost use Rattle.rly_machine.specs.State.{State};
ghost use Rattle.rly_machine.specs.declared.hop.Item.{Item};
ghost use Rattle.rly_machine.specs.declared.reply.Reply.TheVariants.{Bytes, Refused};
ghost use Rattle.rly_segment_checkpoint.specs.Stored.{payload_in, stored_length};
ghost use Rattle.rly_segment_checkpoint.specs.declared.stored.Stored.{Stored};
ghost use Rattle.rly_journal_index.specs.IndexRelation.{IsAlike, StandsForBytes};

use rly_disk::Disk;

/// The reply to a Fetch of the spool with bytes has the length of the payload in flight under that number in the spool
/// of addresses, on an honest disk the bytes at its device address, and its limit; or it is the same refusal. The
/// replies to Window and Show are the same.
pub fn law_fetched<D: Disk>(disk: &D)
    ensures found { (s : State Stored) (t : State (List ℕ)) (hop : HopId) (number : ℕ) (item : Item Stored)
        → IsAlike s t
        → item_of s hop number ≡ Ok item
        → (payload : List ℕ) × (fetch_reply (item_of t hop number) ≡ Bytes payload item.limit)
        × (length payload ≡ stored_length item.payload) }
    ensures bytes { (s : State Stored) (t : State (List ℕ)) (hop : HopId) (number : ℕ) (item : Item Stored)
        → (D.state disk.now).honest
        → StandsForBytes (D.state disk.now) s t → item_of s hop number ≡ Ok item
        → fetch_reply (item_of t hop number) ≡ Bytes (payload_in (D.state disk.now).seen item.payload) item.limit }
    ensures refused { (s : State Stored) (t : State (List ℕ)) (hop : HopId) (number : ℕ) (refusal : Refusal)
        → IsAlike s t
        → item_of s hop number ≡ Err refusal → fetch_reply (item_of t hop number) ≡ Refused refusal }
    ensures window { (s : State Stored) (t : State (List ℕ)) (hop : HopId) → IsAlike s t
        → window_reply s hop ≡ window_reply t hop }
    ensures show { (s : State Stored) (t : State (List ℕ)) (hop : HopId) → IsAlike s t
        → show_reply s hop ≡ show_reply t hop }
{}
