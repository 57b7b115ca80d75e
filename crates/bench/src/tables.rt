//! Repeated calls on a table of one entry.

use crate::calls::Method;
use crate::opening::numbered_value;
use crate::programs::{Sample, verified};
use anyhow::{Result, bail};
use atomic_methods::{Call, Striped};
use bpf_model::{Key, Value};
use std::alloc::Global;

/// Makes the call of this name this often, on a key of 8 bytes that is present.
pub fn call_often(alloc: Global, name: &str, count: u64) -> Result<()> {
    let Some(method) = Method::named(name) else {
        bail!("no call is named so");
    };
    let program = verified(alloc, Sample::Sum)?;
    let key = &Key::from_slice(b"an entry")?;
    let value = &numbered_value(1)?;
    let mut striped = Striped::open(alloc, 1)?;
    striped.apply(&Call::Put { key, value })?;
    let call = method.call(key, value, &program);
    let mut bytes = Value::new();
    for _ in 0..count {
        striped.apply_into(&call, &mut bytes)?;
    }
    Ok(())
}
