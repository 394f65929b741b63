//! The law of two relays whose links have keys.

ghost use Rattle.std.specs.Prelude.{◌≡◌, ◌≤◌, ℕ, List, Some, length};
ghost use Rattle.rly_hop.specs.declared.message.Message.{Message};
ghost use Rattle.rly_hop.specs.Spelling.{IsMessage, spelling};
ghost use Rattle.rly_world.specs.KeyedWorld.{AreFromAnEnd, KeyedEvent, keyed_after, message_in};
ghost use Rattle.rly_link_auth.specs.Keys.{Hears, Keys};
ghost use Rattle.rly_link_auth.specs.Seal.{sealed_packet, unsealed_packet};
ghost use Rattle.rly_world.specs.PairPayloads.{IsPrefix};
ghost use Rattle.rly_world.specs.PairWorld.{IsPair, PairEvent, PairSetup, lastingly_picked, lastingly_taken, now_taken};
ghost use Rattle.rly_world.specs.PairWorld.{pair_after, pair_start, released_count};

use crate::pair_law::law_two;
use rly_link_auth::law_seal;

/// Two relays whose links have keys, both new at first, after any list of events. A link accepts each message that is
/// sealed under one of its keys. If all bytes with a valid tag were sealed by an end, the result is that of a list of
/// events of two relays that receive only each other's packets, whatever else is delivered. So the datagrams that the
/// lower has taken from the upper are a prefix of those that the upper has durably picked for it, and the upper has
/// released at most the number that the lower has durably taken.
pub fn law_keyed()
    ensures heard { (keys : Keys) (key : List ℕ) (m : Message (List ℕ)) → Hears keys key → IsMessage m
        → message_in (unsealed_packet keys (sealed_packet key (spelling m))) ≡ Some m }
    ensures case { (setup : PairSetup) (events : List KeyedEvent) → AreFromAnEnd (pair_start setup) events
        → (fewer : List PairEvent) × (keyed_after (pair_start setup) events ≡ pair_after (pair_start setup) fewer) }
    ensures order { (setup : PairSetup) (events : List KeyedEvent) → IsPair setup
        → AreFromAnEnd (pair_start setup) events
        → IsPrefix (now_taken (keyed_after (pair_start setup) events))
        (lastingly_picked (keyed_after (pair_start setup) events)) }
    ensures released { (setup : PairSetup) (events : List KeyedEvent) → IsPair setup
        → AreFromAnEnd (pair_start setup) events
        → released_count (keyed_after (pair_start setup) events)
        ≤ length (lastingly_taken (keyed_after (pair_start setup) events)) }
{
    law_seal();
    law_two();
}
