//! Laws of networks, each on a function without a body.

ghost use Rattle.std.specs.Prelude.{◌≡◌, ◌≢◌, ◌≤◌, ◌+◌, ℕ, [], List, length, Some, true};
ghost use Rattle.std.specs.List.{Contains};
ghost use Rattle.rly_core.specs.declared.ids.HopId.{HopId as AHop};
ghost use Rattle.rly_core.specs.Bounds.{IsIn};
ghost use Rattle.rly_core.specs.declared.ids.PeerId.{PeerId as APeer};
ghost use Rattle.rly_core.specs.declared.refusal.Refusal.TheVariants.{NoSuchHop, NoSuchPeer, TooLong};
ghost use Rattle.rly_machine.specs.Sound.{IsSound};
ghost use Rattle.rly_machine.specs.State.{State};
ghost use Rattle.rly_machine.specs.Take.{take_refusal};
ghost use Rattle.rly_machine.specs.declared.reply.Reply.TheVariants.{Refused};
ghost use Rattle.rly_plan.specs.ContactPlan.{destination_in, hop_for, own_route};
ghost use Rattle.rly_plan.specs.declared.neighbour.Neighbour.{Neighbour as ANeighbour};
ghost use Rattle.rly_network.specs.Check.{disagreements};
ghost use Rattle.rly_plan.specs.declared.plan.NextHop.{NextHop as ANextHop};
ghost use Rattle.rly_network.specs.Network.{Leads, Takes};
ghost use Rattle.rly_network.specs.Paths.{declared, is_home};
ghost use Rattle.rly_network.specs.declared.station_plan.StationPlan.{StationPlan as AStation};

/// In a network whose plans don't disagree, what a station takes arrives: following `hop_for` from plan to plan leads into a
/// folder, over at most as many stations as there are and links whose ends agree, and no Take on the way is refused for its peer,
/// its hop or its length (`law_takes`). Where the station has a route of the destination's own, the folder is one of the
/// destination's station.
pub fn law_network_leads()
    ensures own { (stations : List AStation) (s : AStation) (payload : List ℕ) (to : ℕ) (hop : AHop)
        → disagreements stations ≡ [] → Contains stations s → length payload ≤ s.device.payload
        → destination_in payload ≡ Some to → own_route s.plan to ≡ Some hop
        → (end : AStation) × Leads stations payload end (length stations) s hop × (is_home stations to end ≡ true) }
    ensures any { (stations : List AStation) (s : AStation) (payload : List ℕ) (from : ℕ) (hop : AHop)
        → disagreements stations ≡ [] → Contains stations s → length payload ≤ s.device.payload
        → hop_for s.plan from payload ≡ Some hop
        → (end : AStation) × Leads stations payload end (length stations) s hop }
{}

/// In a network whose plans don't disagree, the files of a peer's folder that gives their destination arrive there: the station
/// has a hop for them, which leads into a folder of the destination's station.
pub fn law_declared_arrives()
    ensures { (stations : List AStation) (s : AStation) (peer : ANeighbour) (payload : List ℕ) (to : ℕ)
        → disagreements stations ≡ [] → Contains stations s → Contains s.plan.peers peer
        → declared peer ≡ Some to → length payload ≤ s.device.payload → destination_in payload ≡ Some to
        → (hop : AHop) × (hop_for s.plan peer.station payload ≡ Some hop)
        × (end : AStation) × Leads stations payload end (length stations) s hop × (is_home stations to end ≡ true) }
{}

/// A spool with the parameters of a station's device refuses no Take of a peer of its plan for its peer, its hop or its length
/// (1, 2 or 5), if the payload and the hop are as on the ways of `law_network_leads`.
pub fn law_takes()
    ensures { (s : AStation) (spool : State (List ℕ)) (peer : APeer) (number stamp limit : ℕ) (payload : List ℕ) (id : AHop)
        (hop : ANextHop) → IsSound length spool → spool.params ≡ s.device → IsIn 1 (length s.plan.peers) peer.0
        → Takes s payload id hop
        → (take_refusal length spool peer number id stamp limit (length payload) ≢ Some (Refused NoSuchPeer))
        × (take_refusal length spool peer number id stamp limit (length payload) ≢ Some (Refused NoSuchHop))
        × (take_refusal length spool peer number id stamp limit (length payload) ≢ Some (Refused TooLong)) }
{}
