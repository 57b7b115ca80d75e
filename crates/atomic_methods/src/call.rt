//! Calls of methods, and the stripe of a table that a call's key belongs to.
ghost use Rattle.std.specs.Prelude.{◌≡◌, ◌<◌, ◌%◌, ◌↔◌, IsTrue};
ghost use Rattle.atomic_methods.specs.Invocations.{invocation_of};
ghost use Rattle.atomic_methods.specs.Hashes.{stripe_of, IsStripeCount};

use bins::{HashedKey, hash_of};
use bpf_model::{Key, Value};
use std::marker::Model;
use verifier::Verified;

/// A call of one method on one key. It borrows its key, values and program, so a call is a few words and copies none of
/// them. If a program would run and a window is too small for its bytes, the reply is `Unfit` and nothing changes.
#[derive(Clone, Copy)]
pub enum Call<'a> {
    /// Returns the key's value.
    Get {
        key: &'a Key,
    },
    /// Sets the value, and returns the old one.
    Put {
        key: &'a Key,
        value: &'a Value,
    },
    /// Sets the value if the key has none. Returns the old one.
    PutIfAbsent {
        key: &'a Key,
        value: &'a Value,
    },
    /// Removes the key, and returns its value.
    Remove {
        key: &'a Key,
    },
    /// Removes the key if its value is the expected one. Returns whether it was.
    RemoveIf {
        key: &'a Key,
        expected: &'a Value,
    },
    /// Sets the value if the key has one. Returns the old one.
    Replace {
        key: &'a Key,
        value: &'a Value,
    },
    /// Sets the value if the key's value is the expected one. Returns whether it was.
    ReplaceIf {
        key: &'a Key,
        expected: &'a Value,
        value: &'a Value,
    },
    /// Runs the program on the key, its value and the argument. If it answers bytes, they become the value and are
    /// returned; if it answers nothing, the key is removed.
    Compute {
        key: &'a Key,
        program: &'a Verified,
        arg: Option<&'a Value>,
    },
    /// As `Compute` if the key has no value; else returns its value.
    ComputeIfAbsent {
        key: &'a Key,
        program: &'a Verified,
        arg: Option<&'a Value>,
    },
    /// As `Compute` if the key has a value; else returns none.
    ComputeIfPresent {
        key: &'a Key,
        program: &'a Verified,
        arg: Option<&'a Value>,
    },
    /// As `Compute` with this value as the argument, if the key has a value; else sets this value and returns it.
    Merge {
        key: &'a Key,
        value: &'a Value,
        program: &'a Verified,
    },
}

impl<'a> Call<'a> {
    /// Returns the key of the call.
    pub fn key(&self) -> &'a Key
        ensures value { result.now ≡ (invocation_of self.now).key }
    {
        match *self {
            Call::Get { key }
            | Call::Put { key, .. }
            | Call::PutIfAbsent { key, .. }
            | Call::Remove { key }
            | Call::RemoveIf { key, .. }
            | Call::Replace { key, .. }
            | Call::ReplaceIf { key, .. }
            | Call::Compute { key, .. }
            | Call::ComputeIfAbsent { key, .. }
            | Call::ComputeIfPresent { key, .. }
            | Call::Merge { key, .. } => key,
        }
    }
}

/// A call with the hash of its key. You compute the hash once, for the stripe and for the bin.
#[derive(Drop)]
pub struct HashedCall<'a> {
    call: &'a Call<'a>,
    key: HashedKey<'a>,
}

impl<'a> Model for HashedCall<'a> {
    ghost use Rattle.std.specs.Prelude.{◌≡◌};
    ghost use Rattle.atomic_methods.specs.Invocations.{Invocation, invocation_of};

    ghost Value = { Invocation };

    ghost view = { λ hashed. invocation_of hashed.call.now };

    ghost invariant = { λ hashed. hashed.key ≡ (invocation_of hashed.call.now).key };
}

impl<'a> HashedCall<'a> {
    /// Computes the key's hash and stores it with the call. Takes no memory.
    pub fn new(call: &'a Call<'a>) -> HashedCall<'a>
        ensures value { result ≡ invocation_of call.now }
    {
        let key = HashedKey::new(call.key());
        HashedCall { call, key }
    }

    /// Returns the call.
    #[inline(always)]
    pub fn call(&self) -> &'a Call<'a>
        ensures value { invocation_of result.now ≡ self.now }
    {
        self.call
    }

    /// Returns its key with the hash.
    #[inline(always)]
    pub fn key(&self) -> &HashedKey<'a>
        ensures value { result.now ≡ self.now.key }
    {
        &self.key
    }

    /// Returns the stripe of its key, counted from 0, in a table of `stripes` stripes.
    #[inline(always)]
    pub fn stripe(&self, stripes: u64) -> u64
        requires { IsStripeCount stripes }
        ensures value { result ≡ stripe_of stripes self.now.key }
        ensures range { result < stripes }
    {
        stripe_of_hash(self.key.hash(), stripes)
    }
}

/// A table has at most this many stripes.
pub const MAX_STRIPES: u64 = 64;

/// Tests whether a table may have this many stripes: a power of two, from 1 to `MAX_STRIPES`.
pub fn is_stripe_count(stripes: u64) -> bool
    ensures exact { IsTrue result ↔ IsStripeCount stripes }
{
    stripes <= MAX_STRIPES && stripes.is_power_of_two()
}

/// Returns the stripe of keys with this hash, counted from 0, in a table of `stripes` stripes.
#[tactic(auto, using(crate::proofs::StripeLemmas::masked))]
pub(crate) fn stripe_of_hash(hash: u32, stripes: u64) -> u64
    requires { IsStripeCount stripes }
    ensures value { result ≡ hash % stripes }
    ensures range { result < stripes }
{
    u64::from(hash) & (stripes - 1)
}

/// Returns the stripe of a key, counted from 0, in a table of `stripes` stripes.
pub fn stripe_of(key: &Key, stripes: u64) -> u64
    requires { IsStripeCount stripes }
    ensures value { result ≡ stripe_of stripes key.now }
    ensures range { result < stripes }
{
    stripe_of_hash(hash_of(key), stripes)
}
