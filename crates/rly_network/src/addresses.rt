//! Whether an address reaches another, as far as the plans' texts show it.

ghost use Rattle.std.specs.Prelude.{◌≡◌, ◌<◌, length};
ghost use Rattle.rly_network.specs.Links.{is_at_any, is_reached};

/// Whether packets to `remote` reach a socket that listens at `listen`: the two are the same, or `listen` is that port of
/// each address of its machine.
pub(crate) fn is_reached(remote: &str, listen: &str) -> bool
    ensures { result ≡ is_reached remote.now listen.now }
{
    if remote == listen {
        return true;
    }
    let (remote, listen) = (remote.as_bytes(), listen.as_bytes());
    is_at_any(b"0.0.0.0:", remote, listen) || is_at_any(b"[::]:", remote, listen)
}

/// Whether `listen` begins with the address of any machine and a colon, and `remote` ends with the same colon and port.
fn is_at_any(any: &[u8], remote: &[u8], listen: &[u8]) -> bool
    requires { 0 < length any.now }
    ensures { result ≡ is_at_any any.now remote.now listen.now }
{
    listen.starts_with(any) && remote.ends_with(&listen[any.len() - 1..])
}
