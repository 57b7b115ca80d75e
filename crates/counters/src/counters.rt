//! Counters of visits.
ghost use Rattle.std.specs.Prelude.{◌≡◌, All, IfOk, IfSome, IsErrOf, length};
ghost use Rattle.std.specs.Int.{w64, from_le_bytes};
ghost use Rattle.bin_stripes.specs.Invoked.{RefusesCall};
ghost use Rattle.bin_stripes.specs.Passes.{ServesSameMap};
ghost use Rattle.counters.specs.Visits.{Counts, visit};

use anyhow::Result;
use atomic_methods::{Call, ReplyKind};
use bin_stripes::{Pass, StripedMap};
use bpf_assembler::assemble;
use bpf_model::{Key, NoMemory, Sizes, Value};
use flow_shape::shape;
use std::alloc::Global;
use std::error::Error;
use std::fmt;
use std::sync::Wait;
use verifier::{Verified, verify};

/// The counters of pages lie in this many stripes: calls on one stripe wait for each other.
const STRIPES: u64 = 64;

/// Adds the argument to the old value. Both are numbers of eight bytes, the low byte first.
const SUM: &str = "\
ldd r0, [r2+0]
ldd r9, [r3+0]
add64 r0, r9
stxd [r4+0], r0
mov64 r0, 8
exit
";

/// How long a key, an old value, an argument and a result of the program may be.
const SIZES: Sizes = Sizes {
    key: 64,
    old: 8,
    arg: 8,
    result: 8,
};

/// Why a visit was not counted.
#[derive(Clone, Copy, Debug, PartialEq, Eq)]
pub enum CountFault {
    /// The page has no counter yet, and memory for one was refused.
    NoMemory,
    /// There is another value than a number under the page's key.
    NoNumber,
}

impl fmt::Display for CountFault {
    fn fmt<W: fmt::Write>(&self, f: &mut fmt::Formatter<W>) -> fmt::Result {
        f.write_str(match self {
            CountFault::NoMemory => "no memory for a counter",
            CountFault::NoNumber => "no number is under the page's key",
        })
    }
}

impl Error for CountFault {}

impl From<NoMemory> for CountFault {
    fn from(_: NoMemory) -> CountFault
        ensures { result ≡ CountFault.NoMemory }
    {
        CountFault::NoMemory
    }
}

/// Returns the number that is spelled by eight bytes, the low one first.
fn number_in(bytes: &Value) -> Option<u64>
    ensures { IfSome result (λ number. (length bytes.now ≡ 8) × (number ≡ from_le_bytes w64 bytes.now)) }
{
    match bytes.as_slice() {
        [a, b, c, d, e, f, g, h] => Some(u64::from_le_bytes([*a, *b, *c, *d, *e, *f, *g, *h])),
        _ => None,
    }
}

/// Counters of visits, which threads share. Each thread has a pass of its own.
#[derive(Drop)]
pub struct Counters {
    map: StripedMap,
    sum: Verified,
}

impl Counters {
    /// Opens counters without any page, and this many passes. An error tells why there are none: there may be 1 to 64 passes, and
    /// memory may be refused.
    pub fn open(alloc: Global, passes: u64) -> Result<(Counters, Vec<Pass>)>
        ensures { IfOk result (λ opened. All (λ pass. pass.map ≡ opened.0.map) opened.1.items) }
    {
        let program = assemble(alloc, SUM)?;
        let sum = verify(alloc, shape(program)?, SIZES)?;
        let (map, passes) = StripedMap::open(alloc, STRIPES, passes)?;
        Ok((Counters { map, sum }, passes))
    }

    /// Counts one more visit of the page in one step, and returns how many there were. `NoMemory` if the page has no counter yet and
    /// memory for one is refused; `NoNumber` if something else lies under its key. Waits until the stripe of the page is free.
    pub fn count<R: Wait>(&self, rt: &R, pass: &mut Pass, page: &Key) -> Result<u64, CountFault>
        requires { pass.old.map ≡ self.now.map }
        ensures same { ServesSameMap pass.old pass.new }
        ensures ok { IfOk result (λ count. Counts pass.old self.now.sum page.now count pass.new) }
        ensures memory { IsErrOf result CountFault.NoMemory → RefusesCall pass.old (visit self.now.sum page.now) pass.new }
    {
        let mut bytes = Value::new();
        let one = Value::from_slice(&1u64.to_le_bytes()).unwrap();
        let call = Call::Merge {
            key: page,
            value: &one,
            program: &self.sum,
        };
        let kind = self.map.call_into(rt, pass, &call, &mut bytes)?;
        match (kind, number_in(&bytes)) {
            (ReplyKind::Some, Some(count)) => Ok(count),
            _ => Err(CountFault::NoNumber),
        }
    }
}
