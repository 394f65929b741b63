//! The counts of a hop, as `show` and an audit print them.

ghost use Rattle.std.specs.Prelude.{Some};

use rly_machine::HopStatus;
use std::fmt;

/// The counts of a hop's datagrams by outcome, except the expired. It displays as these counts, each after its
/// name.
#[derive(Drop)]
pub struct HopCounts<'a> {
    /// All numbers of the hop.
    pub status: &'a HopStatus,
}

impl fmt::Display for HopCounts<'_> {
    ghost use Rattle.rly_daemon_reply.specs.Counts.{counts_text};

    ghost output = { λ counts. Some (counts_text counts.status.now) };

    #[tactic(auto, unfolding(crate::specs::Counts::counts_text))]
    fn fmt<W: fmt::Write>(&self, f: &mut fmt::Formatter<W>) -> fmt::Result {
        let HopStatus {
            taken,
            queued,
            flight,
            dropped,
            released,
            ..
        } = *self.status;
        write!(f, " taken {taken} queued {queued} flight {flight}")?;
        write!(f, " dropped {dropped} released {released}")
    }
}

/// The number of a hop's datagrams that expired. It displays as this count after its name, or as nothing if it is
/// 0.
#[derive(Drop)]
pub struct Expired {
    /// The count.
    pub count: u64,
}

impl fmt::Display for Expired {
    ghost use Rattle.rly_daemon_reply.specs.Counts.{expired_text};

    ghost output = { λ expired. Some (expired_text expired.count) };

    #[tactic(auto, unfolding(crate::specs::Counts::expired_text))]
    fn fmt<W: fmt::Write>(&self, f: &mut fmt::Formatter<W>) -> fmt::Result {
        let count = self.count;
        if count == 0 {
            return Ok(());
        }
        write!(f, " expired {count}")
    }
}
