//! Copies of requests and replies, which take no memory.
ghost use Rattle.std.specs.Prelude.{◌≡◌};

use run_model::{Reply, Request};

/// The same request. Takes no memory.
pub fn copied_request(request: &Request) -> Request
    ensures { result ≡ request.now }
{
    match request.clone() {
        Ok(copy) => copy,
        Err(_) => unreachable!(),
    }
}

/// The same reply. Takes no memory.
pub fn copied_reply(reply: &Reply) -> Reply
    ensures { result ≡ reply.now }
{
    match reply.clone() {
        Ok(copy) => copy,
        Err(_) => unreachable!(),
    }
}
