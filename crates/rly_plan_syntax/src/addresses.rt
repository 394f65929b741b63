use std::alloc::{AllocError, Global};
use std::marker::Model;

/// The addresses of the link with a neighbour, as the plan writes them. They are checked only when the socket is
/// opened.
#[derive(Drop)]
pub struct Addresses {
    listen: String,
    remote: String,
}

impl Model for Addresses {
    ghost use Rattle.std.specs.Prelude.{string_bytes};
    ghost use Rattle.rly_plan_syntax.specs.Endpoints.{Endpoints};

    ghost Value = { Endpoints };

    ghost view = { λ a. record { listen = string_bytes a.listen; remote = string_bytes a.remote } };
}

impl Addresses {
    ghost use Rattle.std.specs.Prelude.{◌≡◌, IfOk};

    pub(crate) fn copy(alloc: Global, listen: &str, remote: &str) -> Result<Addresses, AllocError>
        ensures { IfOk result (λ a. a ≡ record { listen = listen.now; remote = remote.now }) }
    {
        Ok(Addresses {
            listen: String::from_str(alloc, listen)?,
            remote: String::from_str(alloc, remote)?,
        })
    }

    /// The address on which the link receives.
    pub fn listen(&self) -> &str
        ensures { result.now ≡ self.now.listen }
    {
        self.listen.as_str()
    }

    /// The address to which the link sends.
    pub fn remote(&self) -> &str
        ensures { result.now ≡ self.now.remote }
    {
        self.remote.as_str()
    }
}
