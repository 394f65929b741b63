ghost use Rattle.std.specs.Prelude.{◌≡◌, ◌≤◌, ◌∷◌, [], vec_capacity, IfErr, IfSome, OnOk, length};
ghost use Rattle.rly_core.specs.Bounds.{IsIn};
ghost use Rattle.std.specs.Option.{option_map};
ghost use Rattle.rly_hop.specs.Payloads.{message_bytes};
ghost use Rattle.rly_link.specs.declared.turn.Go.{Go as AGo};
ghost use Rattle.rly_link.specs.declared.turn.Point.{Point as APoint};
ghost use Rattle.rly_threads_workers.specs.DeskExchanges.{batch_outcome, call_asked};
ghost use Rattle.rly_link.specs.LinkHistory.{TellsMore, new_hearing, message_in, packet_in};
ghost use Rattle.rly_threads_workers.specs.SenderState.{let_out, rate_after};
ghost use Rattle.rly_threads_workers.specs.Turns.{packets_of, sleep_at, woken_if};

use crate::desk::Desk;
use crate::sender_state::let_one_out;
use rly_core::HopId;
use rly_hop::{Message, read_message, write_message};
use rly_hop_pacing::Rate;
use rly_line::{BatchError, CallError};
use rly_link::{Go, Link, MAX_PACKET, Point, Sleep, Turn, Waker, Worker};
use rly_machine::{Answer, Ask};
use std::marker::Model;
use std::sync::Wait;

/// A worker's buffer: it receives each packet into it, and writes each message that it sends there. Made once, before
/// the worker's first turn, and never cleared.
pub(crate) type Buffer = [u8; MAX_PACKET];

/// The interfaces of a worker. The model: the ghost histories of its parts.
#[derive(Drop)]
pub struct Ends<L: Link, K: Desk, T: Turn, W: Waker> {
    /// Its link.
    pub link: L,
    /// Executes its calls.
    pub desk: K,
    /// Its clock.
    pub turn: T,
    /// Its waker.
    pub waker: W,
}

impl<L: Link, K: Desk, T: Turn, W: Waker> Model for Ends<L, K, T, W> {
    ghost use Rattle.rly_threads_workers.specs.Runs.{EndsView};

    ghost Value = { EndsView };

    ghost view = { λ e. record {
      heard = L.heard e.link;
      sent = L.sent e.link;
      asked = K.asked e.desk;
      handed = T.told e.turn;
      woken = W.woken e.waker;
    } };
}

impl<L: Link, K: Desk, T: Turn, W: Waker> Ends<L, K, T, W> {
    /// A worker has reached a point.
    pub(crate) fn between<R: Wait>(&mut self, rt: &R, worker: Worker, point: Point) -> Go
        ensures told { TellsMore self.old.handed self.new.handed ((worker, point, result) ∷ []) }
        ensures same { self.new ≡ record self.old { handed = self.new.handed } }
    {
        self.turn.between(rt, worker, point)
    }

    /// Receives at most one packet, and waits for it at most this long. Returns the number of bytes at the front of the
    /// buffer, if one came, and the turn's time, which is read after that.
    pub(crate) fn hear<R: Wait>(
        &mut self,
        rt: &R,
        worker: Worker,
        sleep: Sleep,
        buffer: &mut [u8],
    ) -> (Option<usize>, Go)
        ensures bound { IfSome result.0 (λ count. count ≤ length buffer.new) }
        ensures heard { TellsMore self.old.heard self.new.heard
            (new_hearing sleep (packet_in result.0 buffer.new) ∷ []) }
        ensures told { TellsMore self.old.handed self.new.handed ((worker, APoint.Heard, result.1) ∷ []) }
        ensures same { self.new ≡ record self.old { heard = self.new.heard; handed = self.new.handed } }
    {
        let found = self.receive(sleep, buffer);
        let go = self.between(rt, worker, Point::Heard);
        (found, go)
    }

    /// Receives at most one packet, and waits for it at most this long. A failed receive returns none.
    pub(crate) fn receive(&mut self, sleep: Sleep, buffer: &mut [u8]) -> Option<usize>
        ensures bound { IfSome result (λ count. count ≤ length buffer.new) }
        ensures heard { TellsMore self.old.heard self.new.heard (new_hearing sleep (packet_in result buffer.new) ∷ []) }
        ensures same { self.new ≡ record self.old { heard = self.new.heard } }
    {
        match self.link.recv(sleep, buffer) {
            Ok(found) => found,
            Err(_) => None,
        }
    }

    /// Encodes and sends a message, if it can be encoded. A failure of the link is ignored: a packet may be lost on its
    /// way as well.
    pub(crate) fn send(&mut self, message: Message<&[u8]>, buffer: &mut Buffer)
        ensures told { TellsMore self.old.sent self.new.sent (packets_of (message_bytes message.entry)) }
        ensures same { self.new ≡ record self.old { sent = self.new.sent } }
    {
        if let Ok(length) = write_message(message, buffer) {
            let _sent = self.link.send(&buffer[..length]);
        }
    }

    /// Encodes and sends a message, if the rate permits it at this moment.
    pub(crate) fn send_at(
        &mut self,
        message: Message<&[u8]>,
        buffer: &mut Buffer,
        rate: &mut Option<Rate>,
        at: u64,
    )
        ensures rate { rate.new ≡ rate_after rate.old (packets_of (message_bytes message.entry)) at }
        ensures told { TellsMore self.old.sent self.new.sent
            (let_out rate.old (packets_of (message_bytes message.entry)) at) }
        ensures same { self.new ≡ record self.old { sent = self.new.sent } }
    {
        if let Ok(length) = write_message(message, buffer) {
            self.send_packet(&buffer[..length], rate, at);
        }
    }

    /// Sends a packet, if the rate permits it at this moment.
    fn send_packet(&mut self, packet: &[u8], rate: &mut Option<Rate>, at: u64)
        requires { length packet.now ≤ MAX_PACKET }
        ensures rate { rate.new ≡ rate_after rate.old (packet.now ∷ []) at }
        ensures told { TellsMore self.old.sent self.new.sent (let_out rate.old (packet.now ∷ []) at) }
        ensures same { self.new ≡ record self.old { sent = self.new.sent } }
    {
        if let_one_out(rate, packet, at) {
            let _sent = self.link.send(packet);
        }
    }

    /// Submits a worker's call. Returns its outcome, and the tick after it.
    pub(crate) fn call<R: Wait>(
        &mut self,
        rt: &R,
        worker: Worker,
        ask: Ask,
    ) -> (Result<Answer, CallError>, Go)
        ensures asked { TellsMore self.old.asked self.new.asked (call_asked ask result.0 ∷ []) }
        ensures told { (before : AGo)
            × TellsMore self.old.handed self.new.handed
            ((worker, APoint.Call, before) ∷ (worker, APoint.Answered, result.1) ∷ []) }
        ensures same { self.new ≡ record self.old { asked = self.new.asked; handed = self.new.handed } }
    {
        self.begin_call(rt, worker);
        let outcome = self.desk.call(rt, ask);
        let go = self.between(rt, worker, Point::Answered);
        (outcome, go)
    }

    /// Submits a worker's calls together. Returns their outcomes, and the tick after that.
    pub(crate) fn call_all<R: Wait>(
        &mut self,
        rt: &R,
        worker: Worker,
        asks: &mut Vec<Ask>,
        answers: &mut Vec<Answer>,
    ) -> (Result<(), BatchError>, Go)
        requires count { IsIn 1 64 (length asks.old.items) }
        requires empty { answers.old.items ≡ [] }
        requires room { length asks.old.items ≤ vec_capacity answers.old }
        ensures asked { TellsMore self.old.asked self.new.asked
            ((asks.old.items, batch_outcome result.0 answers.new.items) ∷ []) }
        ensures each { OnOk result.0 (length answers.new.items ≡ length asks.old.items) }
        ensures none_left { OnOk result.0 (asks.new.items ≡ []) }
        ensures none_given { IfErr result.0 (λ _. answers.new.items ≡ []) }
        ensures capacity { (vec_capacity asks.old ≤ vec_capacity asks.new)
            × (vec_capacity answers.old ≤ vec_capacity answers.new) }
        ensures told { (before : AGo)
            × TellsMore self.old.handed self.new.handed
            ((worker, APoint.Call, before) ∷ (worker, APoint.Answered, result.1) ∷ []) }
        ensures same { self.new ≡ record self.old { asked = self.new.asked; handed = self.new.handed } }
    {
        self.begin_call(rt, worker);
        let outcome = self.desk.call_all(rt, asks, answers);
        let go = self.between(rt, worker, Point::Answered);
        (outcome, go)
    }

    /// A worker is about to submit calls. A sender starts to listen: a datagram that is stored for its hop after that
    /// wakes it.
    fn begin_call<R: Wait>(&mut self, rt: &R, worker: Worker) -> Go
        ensures told { TellsMore self.old.handed self.new.handed ((worker, APoint.Call, result) ∷ []) }
        ensures same { self.new ≡ record self.old { handed = self.new.handed } }
    {
        if let Worker::Sender(hop) = worker {
            self.waker.listen(hop);
        }
        self.between(rt, worker, Point::Call)
    }

    /// Wakes the sender of a hop if a datagram was stored for it.
    pub(crate) fn wake_if(&mut self, is_taken: bool, hop: HopId)
        ensures woken { TellsMore self.old.woken self.new.woken (woken_if is_taken hop) }
        ensures same { self.new ≡ record self.old { woken = self.new.woken } }
    {
        if is_taken {
            self.waker.wake(hop);
        }
    }
}

/// How long the receive at this place in a turn waits: only the first one waits.
pub(crate) fn sleep_at(place: usize, sleep: Sleep) -> Sleep
    ensures { result ≡ sleep_at place sleep }
{
    if place == 0 { sleep } else { Sleep::No }
}

/// The message at the front of a buffer, if there is one.
pub(crate) fn message_in<'a>(buffer: &'a [u8], found: Option<usize>) -> Option<Message<&'a [u8]>>
    requires { IfSome found (λ count. count ≤ length buffer.now) }
    ensures { option_map message_bytes result ≡ message_in (packet_in found buffer.now) }
{
    let Some(count) = found else {
        return None;
    };
    match read_message(&buffer[..count]) {
        Ok(message) => Some(message),
        Err(_) => None,
    }
}
