//! Bytes copied over others.
ghost use Rattle.std.specs.Prelude.{◌≡◌, IfOk, OnErr};

use bpf_model::NoMemory;
use bytes::BytesMut;

/// Copies these bytes over the others. Asks for memory if there is no room for them.
pub fn replace(bytes: &mut BytesMut, by: &[u8]) -> Result<(), NoMemory>
    ensures ok { IfOk result (λ _. bytes.new.items ≡ by.now) }
    ensures err { OnErr result (bytes.new.items ≡ bytes.old.items) }
{
    bytes.reserve(by.len())?;
    bytes.clear();
    bytes.extend_reserved(by);
    Ok(())
}
