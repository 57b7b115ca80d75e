//! Where a map's file is.
ghost use Rattle.std.specs.Prelude.{IfOk};
ghost use Rattle.sqlite.specs.Files.{file_state};
ghost use Rattle.sqlite.specs.State.{HasCleanDisk};
ghost use Rattle.kept_file.specs.Content.{HasTables};

use kept_file::{KeepFault, KeptFile, OnDisk};

/// Opens the file in which a map is kept.
pub trait Opener {
    /// Opens the file at this path, and makes it if there is none. A file that is refused stays as it is.
    fn open(&self, path: &str) -> Result<KeptFile<OnDisk>, KeepFault>
        ensures tables { IfOk result (λ file. HasCleanDisk (file_state file.conn) → HasTables (file_state file.conn)) };
}

/// The files of this machine.
#[derive(Clone, Copy)]
pub struct HostFiles<'a> {
    pub rt: &'a HostRuntime,
}

impl Opener for HostFiles<'_> {
    fn open(&self, path: &str) -> Result<KeptFile<OnDisk>, KeepFault> {
        KeptFile::open(self.rt, path)
    }
}
