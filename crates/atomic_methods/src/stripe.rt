//! One stripe of a table of one caller.
ghost use Rattle.std.specs.Prelude.{◌≡◌, ◌<◌, ◌^◌, length, IfOk, OnOk, OnErr};
ghost use Rattle.std.specs.FinMap as finmap;
ghost use Rattle.bins.specs.Copies.{AddsCopies};
ghost use Rattle.bins.specs.Replacements.{ReplacesEach};
ghost use Rattle.atomic_methods.specs.Methods.{Answers, WouldAdd};
ghost use Rattle.atomic_methods.specs.Plans.{reply_by};

use crate::call::HashedCall;
use crate::methods;
use crate::reply::ReplyKind;
use crate::workspace::Workspace;
use bins::{Bins, Counts, EntryList, HashedBins};
use bpf_model::{NoMemory, Value};
use std::alloc::Global;
use std::marker::Model;
use verifier::Verified;

/// The entries of a stripe, in any order.
#[derive(Drop)]
pub(crate) struct Stripe {
    bins: HashedBins,
}

impl Model for Stripe {
    ghost use Rattle.bins.specs.Ranks.{table_in};
    ghost use Rattle.bins.specs.Table.{Table, table_code};

    ghost Value = { Table };

    ghost coded = { table_code };

    ghost view = { λ stripe. table_in stripe.bins };
}

impl Stripe {
    /// Makes a stripe without entries, one of so many. Returns `NoMemory` if a request for memory is refused.
    pub(crate) fn open(alloc: Global, stripes: u64) -> Result<Stripe, NoMemory>
        ensures ok { IfOk result (λ stripe. stripe ≡ finmap.empty) }
    {
        Ok(Stripe {
            bins: HashedBins::open(alloc, stripes)?,
        })
    }

    /// Makes one call, as `methods::apply_into` does.
    pub(crate) fn apply_into(
        &mut self,
        call: &HashedCall<'_>,
        workspace: &mut Workspace,
        bytes: &mut Value,
    ) -> Result<ReplyKind, NoMemory>
        ensures ok { IfOk result (λ kind. Answers self.old call.now self.new (reply_by kind bytes.new)) }
        ensures err { OnErr result (self.new ≡ self.old) }
        ensures memory { OnErr result (WouldAdd self.old call.now) }
    {
        methods::apply_into(&mut self.bins, call, workspace, bytes)
    }

    /// Replaces the value of each key once, as `methods::replace_each` does.
    pub(crate) fn replace_each(&mut self, program: &Verified, arg: &Option<Value>) -> Counts
        ensures each { ReplacesEach program.now arg.now self.old self.new result }
        ensures bounded { result.scanned < 2 ^ 57 }
    {
        self.bins.replace_each(program, arg)
    }

    /// Returns the number of entries. Takes no memory.
    pub(crate) fn count(&self) -> u64
        ensures value { result ≡ length (finmap.entries self.now) }
        ensures bounded { result < 2 ^ 57 }
    {
        self.bins.count()
    }

    /// Adds copies of all entries to the list. Returns `NoMemory` if a request for memory is refused; the list is then unchanged.
    pub(crate) fn copy_into(&self, list: &mut EntryList) -> Result<(), NoMemory>
        ensures ok { OnOk result (AddsCopies self.now list.old list.new) }
        ensures err { OnErr result (list.new ≡ list.old) }
        ensures bounded { length (finmap.entries self.now) < 2 ^ 57 }
    {
        self.bins.copy_into(list)
    }
}
