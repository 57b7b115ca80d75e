//! Programs as clients send them.
ghost use Rattle.std.specs.Prelude.{◌≡◌, ◌↔◌, IsTrue};
ghost use Rattle.bpf_model.specs.Meaning.{IsSafe};
ghost use Rattle.program_registry.specs.Sent.{program_digest, IsSentAs};

use bpf_decode::spells;
use bpf_model::Sizes;
use sha1::{DIGEST_LEN, Sha1};
use verifier::Verified;

/// The name of a program on every server, made only of its sizes and bytes.
#[derive(Clone, Copy, Debug, PartialEq, Eq, PartialOrd, Ord)]
pub struct Digest {
    pub bytes: [u8; DIGEST_LEN],
}

/// Declared sizes and bytes that may spell a program, and their digest.
#[derive(Clone, Copy, Debug)]
pub struct SentProgram<'a> {
    sizes: Sizes,
    bytes: &'a [u8],
    digest: Digest,
    ghost named: { digest.bytes ≡ program_digest sizes bytes.now },
}

/// Returns the digest of these sizes and bytes.
fn digest_of(sizes: Sizes, bytes: &[u8]) -> Digest
    ensures { result.bytes ≡ program_digest sizes bytes.now }
{
    let mut hasher = Sha1::new();
    hasher.update(&sizes.key.to_be_bytes());
    hasher.update(&sizes.old.to_be_bytes());
    hasher.update(&sizes.arg.to_be_bytes());
    hasher.update(&sizes.result.to_be_bytes());
    hasher.update(bytes);
    Digest {
        bytes: hasher.finalize(),
    }
}

impl<'a> SentProgram<'a> {
    /// Stores the sizes and bytes with their digest. Takes no memory.
    pub fn new(sizes: Sizes, bytes: &'a [u8]) -> SentProgram<'a>
        ensures sizes { result.sizes ≡ sizes }
        ensures bytes { result.bytes.now ≡ bytes.entry.now }
    {
        SentProgram {
            sizes,
            bytes,
            digest: digest_of(sizes, bytes),
        }
    }

    /// The digest.
    pub fn digest(&self) -> Digest
        ensures { result.bytes ≡ program_digest self.now.sizes self.now.bytes.now }
    {
        self.digest
    }

    /// Tests whether the program was sent like this, by its sizes and bytes. Takes no memory.
    pub(crate) fn is(&self, verified: &Verified) -> bool
        ensures same { IsTrue result ↔ IsSentAs self.now.sizes self.now.bytes.now verified.now }
        ensures safe { IsSafe verified.now.program verified.now.sizes }
    {
        let program = verified.program();
        verified.sizes() == self.sizes && spells(self.bytes, program)
    }
}
