ghost use Rattle.std.specs.Prelude.{◌≡◌, IfOk, OnErr, OnOk};
ghost use Rattle.rly_machine.specs.Ask.{NeedsMemory, ask_step};
ghost use Rattle.rly_machine.specs.Query.{HasBytes, query_reply};

use crate::command::{Ask, Query};
use crate::content::Payload;
use crate::machine::Machine;
use crate::reply::Reply;
use std::alloc::{AllocError, Global};

impl Machine<Payload> {
    /// Returns the reply to a query. Allocates only for the bytes of a payload.
    pub fn answer(&self, alloc: Global, query: Query) -> Result<Reply, AllocError>
        ensures reply { IfOk result (λ reply. reply ≡ query_reply self.now.state query) }
        ensures memory { OnErr result (HasBytes (query_reply self.now.state query)) }
    {
        match query {
            Query::Fetch { hop, number } => match self.item(hop, number) {
                Ok(item) => Ok(Reply::Bytes {
                    payload: Payload::copy_of(alloc, item.payload.as_slice())?,
                    limit: item.limit,
                }),
                Err(refusal) => Ok(Reply::Refused(refusal)),
            },
            Query::Window { hop } => Ok(self.ask_window(hop)),
            Query::Show { hop } => Ok(self.ask_show(hop)),
        }
    }

    /// Evaluates a request, and returns its reply. If the allocation fails, the state is unchanged.
    pub fn evaluate(&mut self, alloc: Global, ask: Ask) -> Result<Reply, AllocError>
        ensures state { OnOk result (self.new.state ≡ (ask_step self.old.state ask).0) }
        ensures reply { IfOk result (λ reply. reply ≡ (ask_step self.old.state ask).1) }
        ensures err { OnErr result (self.new.state ≡ self.old.state) }
        ensures memory { OnErr result (NeedsMemory self.old ask) }
    {
        match ask {
            Ask::Command(command) => {
                let room = self.reserve_for(alloc, &command)?;
                Ok(self.apply(command, room))
            }
            Ask::Query(query) => self.answer(alloc, query),
        }
    }
}
