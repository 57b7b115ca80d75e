//! Well-known texts in Lua.
ghost use Rattle.std.specs.Prelude.{◌≡◌, IfSome, IfNone};
ghost use Rattle.sha1.specs.Sha1.{sha1};
ghost use Rattle.redis_scripts.specs.Lua.{redis_py_release, redis_py_extend, redis_py_reacquire, redlock_release, ActsOnLock};
ghost use Rattle.redis_scripts.specs.declared.lua.LockAct.{LockAct as TheAct};

use crate::digest::digest_of;
use program_registry::Digest;

/// What a well-known text in Lua does to a lock, which is an entry: the lock's name is the key, its holder's token the value.
#[derive(Clone, Copy, Debug, PartialEq, Eq)]
pub enum LockAct {
    /// Removes the entry if its value is the first argument. The reply is 1 if it did, and else 0.
    Release,
    /// Moves the entry's deadline if its value is the first argument and it has a deadline. The second argument is a number of
    /// milliseconds. If the third is `0`, they are added to the time that is left, else they begin now. The reply is 1 if it did, and
    /// else 0.
    Extend,
    /// Has the entry's time begin anew if its value is the first argument. The second argument is a number of milliseconds. The reply
    /// is 1 if it did, and else 0.
    Reacquire,
}

/// The digests of the texts.
#[derive(Clone, Copy, Debug)]
pub(crate) struct LuaTexts {
    release: Digest,
    redlock: Digest,
    extend: Digest,
    reacquire: Digest,
    ghost releases: { (release.bytes ≡ sha1 redis_py_release) × (redlock.bytes ≡ sha1 redlock_release) },
    ghost prolongs: { (extend.bytes ≡ sha1 redis_py_extend) × (reacquire.bytes ≡ sha1 redis_py_reacquire) },
}

impl LuaTexts {
    /// Computes the digests.
    pub(crate) fn new() -> LuaTexts {
        LuaTexts {
            release: digest_of(REDIS_PY_RELEASE),
            redlock: digest_of(REDLOCK_RELEASE),
            extend: digest_of(REDIS_PY_EXTEND),
            reacquire: digest_of(REDIS_PY_REACQUIRE),
        }
    }

    /// Returns what the text with this digest does, if it is one of these.
    pub(crate) fn act(&self, digest: Digest) -> Option<LockAct>
        ensures some { IfSome result (ActsOnLock digest.bytes) }
        ensures none { IfNone result ((act : TheAct) → ActsOnLock digest.bytes act → ⊥) }
    {
        if digest == self.release || digest == self.redlock {
            Some(LockAct::Release)
        } else if digest == self.extend {
            Some(LockAct::Extend)
        } else if digest == self.reacquire {
            Some(LockAct::Reacquire)
        } else {
            None
        }
    }
}

/// The text by which `Lock.release` of redis-py releases a lock.
const REDIS_PY_RELEASE: &[u8] =
    b"\n        local token = redis.call('get', KEYS[1])\n        if not token or token ~= ARGV[1] then\n            return 0\n        end\n        redis.call('del', KEYS[1])\n        return 1\n    ";

/// The text by which `Lock.extend` of redis-py gives a lock more time.
const REDIS_PY_EXTEND: &[u8] =
    b"\n        local token = redis.call('get', KEYS[1])\n        if not token or token ~= ARGV[1] then\n            return 0\n        end\n        local expiration = redis.call('pttl', KEYS[1])\n        if not expiration then\n            expiration = 0\n        end\n        if expiration < 0 then\n            return 0\n        end\n\n        local newttl = ARGV[2]\n        if ARGV[3] == \"0\" then\n            newttl = ARGV[2] + expiration\n        end\n        redis.call('pexpire', KEYS[1], newttl)\n        return 1\n    ";

/// The text by which `Lock.reacquire` of redis-py has a lock's time begin anew.
const REDIS_PY_REACQUIRE: &[u8] =
    b"\n        local token = redis.call('get', KEYS[1])\n        if not token or token ~= ARGV[1] then\n            return 0\n        end\n        redis.call('pexpire', KEYS[1], ARGV[2])\n        return 1\n    ";

/// The text on the page of Redis on distributed locks.
const REDLOCK_RELEASE: &[u8] =
    b"if redis.call(\"get\",KEYS[1]) == ARGV[1] then\n    return redis.call(\"del\",KEYS[1])\nelse\n    return 0\nend";
