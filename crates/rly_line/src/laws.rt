//! The rules of the two queues, for any schedule.

ghost use Rattle.std.specs.Prelude.{◌≡◌, ◌++◌, List, Option};
ghost use Rattle.rly_line.specs.declared.submission.LineView.{LineView as AView};
ghost use Rattle.rly_line.specs.declared.replies.ReplyView.{ReplyView as AReplyView};
ghost use Rattle.rly_line.specs.Batches.{AnswersView, BatchView, calls_in_line};
ghost use Rattle.rly_line.specs.Replies.{AreBesideReplies, AreReplied, IsPrefixOf};
ghost use Rattle.rly_line.specs.Submission.{AreBeside, AreLined, calls_of};

/// For each seat, the calls received, followed by those of the batches in the queue, are the calls that it
/// submitted, ask for ask. The channel keeps the rule at each moment; `LineEnd::law_beginning` gives it to a holder
/// of both ends.
pub fn law_line()
    ensures { (puts : List (Option BatchView)) (views : List AView) (taker putter : AView) → AreLined puts views
        → AreBeside views taker putter
        → putter.put ≡ calls_of putter.seat taker.taken ++ calls_of putter.seat (calls_in_line puts) }
{}

/// The history that a seat knows is a prefix of the last one sent to it, from the same base. The channel of the
/// answers keeps the rule at each moment. The history sent is a prefix of the one history of the answering thread
/// (`Responder`).
pub fn law_reply_line()
    ensures { (answers : List (Option AnswersView)) (views : List AReplyView) (teller hearer : AReplyView)
        → AreReplied answers views → AreBesideReplies views teller hearer
        → IsPrefixOf hearer.base teller.base hearer.known teller.told }
{}
