ghost use Rattle.std.specs.Prelude.{◌≡◌, ◌↔◌, IsTrue};

use run_model::Reply;

/// Whether two replies are the same. Takes no memory.
pub fn are_same_replies(one: &Reply, other: &Reply) -> bool
    ensures { IsTrue result ↔ (one.now ≡ other.now) }
{
    one == other
}
