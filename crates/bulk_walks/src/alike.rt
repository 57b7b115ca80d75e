//! The same scans give the same reply.
ghost use Rattle.std.specs.Prelude.{◌≡◌, ◌↔◌, IsTrue};
ghost use Rattle.bulk_walks.specs.Walks.{WalksAlike, CountsAlike};

use atomic_methods::WalkReply;

/// Tests whether two replies are the same. Replies to one kind of walk, with one program and one argument, are the same
/// if their scans found the same, and so are those to counts. The number of workers and the thresholds make no
/// difference.
pub fn is_same_reply(one: &WalkReply, other: &WalkReply) -> bool
    ensures exact { IsTrue result ↔ (one.now.items ≡ other.now.items) × (one.now.counts ≡ other.now.counts) }
    ensures walks { WalksAlike one.now other.now → IsTrue result }
    ensures counts { CountsAlike one.now other.now → IsTrue result }
{
    one.is_same(other)
}
