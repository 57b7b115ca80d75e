//! The program's runs on a worker's entries, some after the others.
ghost use Rattle.std.specs.Prelude.{◌≡◌, ℕ, ◌+◌, ◌<◌, ◌^◌, ◌++◌, List, Option, IfOk, OnOk, length};
ghost use Rattle.verifier.specs.Checked.{Checked};
ghost use Rattle.bins.specs.Table.{Entry};
ghost use Rattle.bulk_walks.specs.Kept.{IsAnswered, IsGathered, Keeps, KeepsSome};

use crate::answers::{Answers, leads_of, order_of};
use crate::part::Gathered;
use crate::running::run_on;
use crate::walk::Walk;
use atomic_methods::WalkKind;
use bins::{EntryList, LentEntries};
use bpf_model::NoMemory;
use std::alloc::Global;

/// Returns the positions of the items that are to be sorted, in the order of their keys: all for `ForEach`, none for `Search`.
fn order_for(alloc: Global, kind: WalkKind, items: &EntryList) -> Result<Vec<usize>, NoMemory>
    ensures { IfOk result (λ order. (all : List Entry) → KeepsSome kind all items.now → Keeps kind all items.now order.items) }
{
    match kind {
        WalkKind::Search => Ok(Vec::new(alloc)),
        WalkKind::ForEach => order_of(alloc, items),
    }
}

impl Gathered {
    /// Runs the program on these entries too. Returns `NoMemory` if a request for memory is refused; the walk is over then.
    pub(crate) fn add(
        &mut self,
        alloc: Global,
        walk: &Walk<'_>,
        entries: &LentEntries<'_>,
    ) -> Result<(), NoMemory>
        requires room { self.old.scanned + length entries.now < 2 ^ 64 }
        ensures gathered { OnOk result ((found : List Entry)
            → IsGathered walk.now.kind walk.now.program.now walk.now.arg.now found self.old
            → IsGathered walk.now.kind walk.now.program.now walk.now.arg.now (found ++ entries.now) self.new) }
        ensures scanned { OnOk result (self.new.scanned ≡ self.old.scanned + length entries.now) }
    {
        let unfit = run_on(alloc, walk, entries, &mut self.items)?;
        self.scanned += entries.len() as u64;
        self.unfit += unfit;
        Ok(())
    }

    /// Puts the items in the order of their keys, if there may be several. Returns `NoMemory` if a request for memory is refused.
    pub(crate) fn ordered(self, alloc: Global, kind: WalkKind) -> Result<Answers, NoMemory>
        ensures { IfOk result (λ answers. (checked : Checked) (arg : Option (List ℕ)) (found : List Entry)
            → IsGathered kind checked arg found self → IsAnswered kind checked arg found answers) }
    {
        let Gathered {
            items,
            scanned,
            unfit,
        } = self;
        let order = order_for(alloc, kind, &items)?;
        let leads = leads_of(alloc, &items, &order)?;
        Ok(Answers {
            items,
            order,
            leads,
            scanned,
            unfit,
        })
    }
}
