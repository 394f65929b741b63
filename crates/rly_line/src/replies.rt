//! The queue of one seat's answers, batch by batch.

ghost use Rattle.std.specs.Prelude.{◌≡◌, ℕ, ◌∷◌, [], None, Some, false, length, true, IfNone, IfSome, IfOk, MatchBool};
ghost use Rattle.std.specs.Prelude.{MatchOption};
ghost use Rattle.crossbeam_channel.specs.Claims.{view, IsSeatAt};
ghost use Rattle.crossbeam_channel.specs.Ends.{sends_on, receives_on};
ghost use Rattle.rly_line.specs.EndViews.{new_reply_end, with_gone};
ghost use Rattle.rly_line.specs.HelpersEnds.{Teaches, new_hearer};
ghost use Rattle.rly_line.specs.Replies.{IsPrefixOf, MayReport};

use crate::batch::Answers;
use crate::ghost_history::{GhostHistory, HasState};
use crossbeam_channel::protocol::{Join, Lesson, Outcome, Protocol, Split};
use crossbeam_channel::{Pass, RuledReceiver, RuledSender, TryRecvError, bounded_with};
use rly_machine::{Answer, Call, Machine, Payload};
use std::alloc::{AllocError, Global};
use std::collections::LinkedList;
use std::marker::{Brand, Model, PhantomData};
use std::sync::Wait;

/// A state of a spool, for views only. No value of it is made.
pub struct Start {
    machine: Machine<Payload>,
}

impl Model for Start {
    ghost use Rattle.std.specs.Prelude.{ℕ, List};
    ghost use Rattle.rly_machine.specs.State.{State};

    ghost Value = { State (List ℕ) };

    ghost view = { λ s. s.machine.state };
}

/// The knowledge of a token about the queue. No value of it is made.
pub struct ReplyView {
    /// Whether it is that of the sending end.
    pub tells: bool,
    /// Whether it is that of the seat.
    pub hears: bool,
    /// The seat whose queue it is.
    pub seat: u64,
    /// The base state of the histories, once one was sent or received.
    pub base: Option<Start>,
    /// The history sent with the last answers that the seat received.
    pub known: LinkedList<(Call, Answer)>,
    /// The base before those answers.
    pub base_before: Option<Start>,
    /// The history known before those answers.
    pub known_before: LinkedList<(Call, Answer)>,
    /// The history that was last sent.
    pub told: LinkedList<(Call, Answer)>,
}

/// The rule of the queue.
pub struct Replied;

impl Protocol<Option<Answers>, ReplyView> for Replied {
    ghost use Rattle.rly_line.specs.HelpersEnds as helpers;
    ghost use Rattle.rly_line.specs.Replies as replies;

    ghost holds = { replies.AreReplied };

    ghost first = { helpers.both_ends };
}

/// The seat of the queue, for the proof only.
trait LineOwner {
    ghost seat: { ℕ };
}

impl LineOwner for Brand {
    ghost seat = { 0 };
}

/// The first token splits into those of the two ends.
struct Ends<W> {
    whose: PhantomData<W>,
}

impl<W: LineOwner> Split<ReplyView> for Ends<W> {
    ghost use Rattle.rly_line.specs.HelpersEnds.{replying_view, hearing_view};

    ghost left = { λ v. replying_view W.seat };

    ghost right = { λ v. hearing_view W.seat };
}

/// A history to send, for the proof only.
trait ReportedHistory {
    ghost use Rattle.std.specs.Prelude.{ℕ, List};
    ghost use Rattle.rly_machine.specs.History.{Entry};
    ghost use Rattle.rly_machine.specs.State.{State};

    ghost start: { State (List ℕ) };

    ghost history: { List Entry };
}

impl ReportedHistory for Brand {
    ghost use Rattle.std.specs.Prelude.{[]};
    ghost use Rattle.rly_machine.specs.State.{new_state};

    ghost start = { new_state
        (record {
          hops = 0;
          peers = 0;
          window = 0;
          items = 0;
          bytes = 0;
          maxpacket = 0;
          target = 0;
          interval = 0;
          payload = 0;
        }) };

    ghost history = { [] };
}

/// A batch of answers is sent, with a history.
struct Puts<W> {
    tale: PhantomData<W>,
}

impl<W: ReportedHistory> Outcome<Option<Answers>, ReplyView> for Puts<W> {
    ghost use Rattle.std.specs.Prelude.{◌≡◌, Some};

    ghost then = { λ v given w. w ≡ record v { base = Some W.start; told = W.history } };
}

impl<W: ReportedHistory> Lesson<Option<Answers>, ReplyView> for Puts<W> {
    ghost fact = { λ v items. Unit {0} };
}

/// The queue is closed.
struct Closes;

impl Outcome<Option<Answers>, ReplyView> for Closes {
    ghost use Rattle.std.specs.Prelude.{◌≡◌};

    ghost then = { λ v given w. w ≡ v };
}

impl Lesson<Option<Answers>, ReplyView> for Closes {
    ghost fact = { λ v items. Unit {0} };
}

/// A batch of answers is received.
struct Takes;

impl Outcome<Option<Answers>, ReplyView> for Takes {
    ghost use Rattle.rly_line.specs.HelpersEnds.{IsHeard};

    ghost then = { λ v given w. IsHeard v given w };
}

impl Lesson<Option<Answers>, ReplyView> for Takes {
    ghost fact = { λ v items. Unit {0} };
}

/// The sender's token absorbs the seat's.
struct Together;

impl Join<ReplyView> for Together {
    ghost use Rattle.rly_line.specs.HelpersEnds.{both_known, silent_view};

    ghost both = { λ v w. both_known v w };

    ghost spent = { silent_view };
}

impl Lesson<Option<Answers>, ReplyView> for Together {
    ghost use Rattle.rly_line.specs.Replies.{IsPrefixOf};

    ghost fact = { λ v items. IsPrefixOf v.base_before v.base v.known v.told };
}

/// The sending end of a seat's answers. The model: the queue and its seat, the number of batches of answers in it,
/// the base and the history last sent, and whether the seat was dropped.
#[derive(Drop)]
pub struct ReplyEnd {
    line: RuledSender<Option<Answers>, ReplyView, Replied>,
    pass: Pass<Option<Answers>, ReplyView>,
    gone: bool,
}

impl Model for ReplyEnd {
    ghost use Rattle.std.specs.Prelude.{◌≡◌, Some, true};
    ghost use Rattle.crossbeam_channel.specs.Claims.{view as pass_view, IsSeatAt};
    ghost use Rattle.crossbeam_channel.specs.Ends.{ruled_capacity, sends_on};
    ghost use Rattle.rly_line.specs.HelpersEnds.{replies_of};
    ghost use Rattle.rly_line.specs.Replies.{ReplyEndView};

    ghost Value = { ReplyEndView };

    ghost view = { λ e. record {
      of = Some (replies_of e.pass);
      seat = (pass_view e.pass).seat;
      capacity = ruled_capacity (sends_on e.line);
      base = (pass_view e.pass).base;
      told = (pass_view e.pass).told;
      gone = e.gone;
    } };

    ghost invariant = { λ e. IsSeatAt (sends_on e.line) e.pass × ((pass_view e.pass).tells ≡ true) };
}

impl ReplyEnd {
    /// Sends a batch of answers, with a history. Returns whether it was sent: not if the seat was dropped, and then
    /// never again.
    pub fn tell<T: HasState, R: Wait>(
        &mut self,
        rt: &R,
        answers: Answers,
        story: &GhostHistory<T>,
    ) -> bool
        requires { self.old.gone ≡ false → MayReport self.old story.now.start answers.answers story.now.history }
        ensures { MatchBool result
            (self.new ≡ record self.old { base = Some story.now.start; told = story.now.history })
            (self.new ≡ record self.old { gone = true }) }
    {
        self.tell_as::<Brand, T, R>(rt, answers, story)
    }

    fn tell_as<W: ReportedHistory, T: HasState, R: Wait>(
        &mut self,
        rt: &R,
        answers: Answers,
        story: &GhostHistory<T>,
    ) -> bool
        requires tale { (W.start ≡ story.now.start) × (W.history ≡ story.now.history) }
        requires may { self.old.gone ≡ false → MayReport self.old W.start answers.answers W.history }
        ensures { MatchBool result (self.new ≡ record self.old { base = Some W.start; told = W.history })
            (self.new ≡ record self.old { gone = true }) }
    {
        let _ = story;
        if self.gone {
            return false;
        }
        let put = self
            .line
            .send_as::<Puts<W>, R>(rt, &mut self.pass, Some(answers))
            .is_ok();
        self.gone = !put;
        put
    }

    /// Closes the queue, without waiting. Has no effect if the seat was dropped, or did not take its last answers:
    /// then it has no batch that waits for others.
    pub fn close<R: Wait>(&mut self, rt: &R)
        ensures { with_gone self.new ≡ with_gone self.old }
    {
        if !self.gone {
            let _closed = self.line.try_send_as::<Closes, R>(rt, &mut self.pass, None);
        }
    }

    /// The history that a seat of this queue knows is a prefix of the one last sent to it. Consumes the seat's end.
    pub fn law_known(&mut self, end: HearingEnd)
        requires { end.of ≡ self.old.of }
        ensures same { self.new ≡ self.old }
        ensures known { IsPrefixOf end.base self.old.base end.known self.old.told }
    {
        let HearingEnd {
            line: _line,
            pass,
            is_deaf: _is_deaf,
        } = end;
        self.line.absorb::<Together>(&mut self.pass, pass);
        self.line.learn_as::<Together>(&mut self.pass);
    }
}

/// The receiving end of a seat's answers. The model: the queue and its seat, the base and the history that the seat
/// knows, and whether it stopped listening.
#[derive(Drop)]
pub struct HearingEnd {
    line: RuledReceiver<Option<Answers>, ReplyView, Replied>,
    pass: Pass<Option<Answers>, ReplyView>,
    is_deaf: bool,
}

impl Model for HearingEnd {
    ghost use Rattle.std.specs.Prelude.{◌≡◌, true};
    ghost use Rattle.crossbeam_channel.specs.Claims.{view as pass_view, IsSeatAt};
    ghost use Rattle.crossbeam_channel.specs.Ends.{receives_on};
    ghost use Rattle.rly_line.specs.HelpersEnds.{Hearer, heard_by, replies_of};
    ghost use Rattle.rly_line.specs.Replies.{IsPrefixOf};

    ghost Value = { Hearer };

    ghost view = { λ e. heard_by (replies_of e.pass) (pass_view e.pass) e.is_deaf };

    ghost invariant = { λ e. IsSeatAt (receives_on e.line) e.pass × ((pass_view e.pass).hears ≡ true)
        × IsPrefixOf (pass_view e.pass).base_before (pass_view e.pass).base (pass_view e.pass).known_before
        (pass_view e.pass).known };
}

impl HearingEnd {
    /// Waits for a batch of `count` answers. `None`: none was left, and no more come, or the other end was dropped;
    /// or the number of answers was wrong, which adds no knowledge, and the end stops listening.
    pub fn hear<R: Wait>(&mut self, rt: &R, count: usize) -> Option<Answers>
        requires { self.old.deaf ≡ false }
        ensures seat { (self.new.of ≡ self.old.of) × (self.new.seat ≡ self.old.seat) }
        ensures count { IfSome result (λ given. length given.answers ≡ count) }
        ensures listens { IfSome result (λ given. self.new.deaf ≡ false) }
        ensures heard { IfSome result
            (λ given. Teaches self.old.seat self.old.base self.new.base self.old.known given.answers self.new.known) }
        ensures none { IfNone result (self.new ≡ record self.old { deaf = self.new.deaf }) }
    {
        match self.line.recv_as::<Takes, R>(rt, &mut self.pass) {
            Ok(Some(answers)) => {
                self.is_deaf = answers.len() != count;
                if self.is_deaf { None } else { Some(answers) }
            }
            Ok(None) | Err(_) => None,
        }
    }

    /// Takes a batch of `count` answers if it is there. `Some(None)`: none is there, and no more come, or the other
    /// end was dropped; or the number of answers was wrong, which adds no knowledge, and the end stops listening.
    pub fn try_hear<R: Wait>(&mut self, rt: &R, count: usize) -> Option<Option<Answers>>
        requires { self.old.deaf ≡ false }
        ensures seat { (self.new.of ≡ self.old.of) × (self.new.seat ≡ self.old.seat) }
        ensures not_yet { IfNone result (self.new ≡ self.old) }
        ensures found { IfSome result (λ found. MatchOption found
            (self.new ≡ record self.old { deaf = self.new.deaf })
            (λ given. (length given.answers ≡ count) × (self.new.deaf ≡ false)
            × Teaches self.old.seat self.old.base self.new.base self.old.known given.answers self.new.known)) }
    {
        match self.line.try_recv_as::<Takes, R>(rt, &mut self.pass) {
            Ok(Some(answers)) => {
                self.is_deaf = answers.len() != count;
                Some(if self.is_deaf { None } else { Some(answers) })
            }
            Ok(None) | Err(TryRecvError::Disconnected) => Some(None),
            Err(TryRecvError::Empty) => None,
        }
    }
}

/// The two ends of a seat's answer queue, which is empty. It holds one batch of answers.
pub fn reply_line(alloc: Global, seat: u16) -> Result<(ReplyEnd, HearingEnd), AllocError>
    ensures { IfOk result (λ ends. (ends.0 ≡ new_reply_end ends.0.of seat) × (ends.1 ≡ new_hearer ends.0.of seat)) }
{
    reply_line_of::<Brand>(alloc, seat)
}

fn reply_line_of<W: LineOwner>(
    alloc: Global,
    seat: u16,
) -> Result<(ReplyEnd, HearingEnd), AllocError>
    requires { seat ≡ W.seat }
    ensures { IfOk result (λ ends. (ends.0 ≡ new_reply_end ends.0.of seat) × (ends.1 ≡ new_hearer ends.0.of seat)) }
{
    let (tells, hears, mut pass) = bounded_with::<Option<Answers>, ReplyView, Replied, Global>(
        alloc, 1,
    )?;
    let hearing = tells.another::<Ends<W>>(&mut pass);
    Ok((
        ReplyEnd {
            line: tells,
            pass,
            gone: false,
        },
        HearingEnd {
            line: hears,
            pass: hearing,
            is_deaf: false,
        },
    ))
}
