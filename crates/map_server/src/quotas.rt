//! How many sessions workers have begun, and how many they may.
ghost use Rattle.std.specs.Prelude.{◌≡◌, IfOk, vec_len};

use bpf_model::NoMemory;
use std::alloc::Global;
use std::sync::atomic::{AtomicU64, Ordering};

/// How many sessions each worker has begun, and how many it may.
#[derive(Drop)]
pub struct Quotas {
    begun: Vec<AtomicU64>,
    most: Option<u64>,
}

impl Quotas {
    /// Quotas of this number of workers. Each may serve at most `most` sessions, or any number. `NoMemory` if a
    /// request for memory was refused.
    pub fn new(alloc: Global, workers: u64, most: Option<u64>) -> Result<Quotas, NoMemory>
        ensures workers { IfOk result (λ quotas. vec_len quotas.begun ≡ workers) }
        ensures most { IfOk result (λ quotas. quotas.most ≡ most) }
    {
        let mut begun = Vec::new(alloc);
        for _ in 0..workers {
            begun.push(AtomicU64::new(0))?;
        }
        Ok(Quotas { begun, most })
    }

    /// How many sessions each worker may begin; none: any number.
    pub(crate) fn most(&self) -> Option<u64>
        ensures { result ≡ self.now.most }
    {
        self.most
    }

    /// How many workers there are.
    pub(crate) fn workers(&self) -> u64 {
        self.begun.len() as u64
    }

    /// The worker may begin one more session.
    pub(crate) fn has_left(&self, worker: u32) -> bool {
        let Some(most) = self.most else {
            return true;
        };
        match self.begun.get(worker as usize) {
            Some(begun) => begun.load(Ordering::SeqCst) < most,
            None => false,
        }
    }

    /// The worker begins one more session, which is counted.
    pub(crate) fn begin(&self, worker: u32) {
        if let Some(begun) = self.begun.get(worker as usize) {
            begun.fetch_add(1, Ordering::SeqCst);
        }
    }
}
