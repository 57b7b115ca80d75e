//! The scripts that all threads share.
ghost use Rattle.std.specs.Prelude.{◌≡◌, ◌⊎◌, All, IfSome, IfNone, IfOk, IfErr};
ghost use Rattle.sha1.specs.Sha1.{sha1};
ghost use Rattle.program_registry.specs.Tokens.{IsOf, program_of};
ghost use Rattle.admission.specs.Admissions.{IsAdmitted, IsNotAdmitted, greatest};
ghost use Rattle.admission.specs.declared.fault.AdmissionFault.{AdmissionFault as TheRefusal};
ghost use Rattle.redis_scripts.specs.Lua.{ActsOnLock};
ghost use Rattle.redis_scripts.specs.declared.lua.LockAct.{LockAct as TheAct};
ghost use Rattle.redis_scripts.specs.Scripts.{IsLoadedText, IsText, IsScript};
ghost use Rattle.redis_scripts.specs.Faults.{IsFaultOf};

use crate::digest::digest_of;
use crate::fault::ScriptFault;
use crate::known::{Known, Script};
use crate::lua::{LockAct, LuaTexts};
use crate::reading::read;
use admission::{AdmissionFault, ProgramLimits, admit};
use bpf_model::{NoMemory, Sizes};
use program_registry::{Digest, ProgramToken, Registry, SentProgram};
use std::alloc::Global;
use std::sync::{Mutex, Wait};

/// The scripts that clients have loaded. Threads share them.
#[derive(Drop)]
pub struct Scripts<'a> {
    registry: &'a Registry,
    known: Mutex<Known<'a>>,
    lua: LuaTexts,
}

/// The number with which a refusal of memory is admitted or verified.
const NO_MEMORY: u8 = 9;

/// What a script takes beside its text, about: its entry, its digest, and what the allocator adds.
const SCRIPT_BYTES: u64 = 192;

/// Returns the refusal of a program as the fault of its script.
fn fault_of(fault: AdmissionFault) -> ScriptFault
    ensures { (result ≡ ScriptFault.NoMemory) ⊎ (result ≡ ScriptFault.Admission fault) }
{
    if fault.number() == NO_MEMORY {
        return ScriptFault::NoMemory;
    }
    ScriptFault::Admission(fault)
}

impl<'a> Scripts<'a> {
    /// Makes an empty table, whose scripts register their programs here. Takes no memory.
    pub fn new(alloc: Global, registry: &'a Registry) -> Scripts<'a> {
        Scripts::bounded(alloc, registry, usize::MAX)
    }

    /// Makes an empty table that takes at most `most` scripts. Takes no memory.
    pub fn bounded(alloc: Global, registry: &'a Registry, most: usize) -> Scripts<'a> {
        Scripts {
            registry,
            known: Mutex::new(Known::new(alloc, most)),
            lua: LuaTexts::new(),
        }
    }

    /// Returns the script that was loaded with this digest, if there is one. Takes no memory. Waits while another thread notes or looks
    /// up a script.
    pub fn find<R: Wait>(&self, rt: &R, digest: Digest) -> Option<Script<'a>>
        ensures named { IfSome result (λ script. script.digest.bytes ≡ digest.bytes) }
        ensures script { IfSome result (λ script. IsScript digest.bytes script.method script.reply script.with_now script.program.now) }
    {
        self.known.lock(rt).find(digest)
    }

    /// Returns what the well-known text in Lua with this digest does to a lock, if it is one. Takes no memory. Never waits.
    pub fn known_lua(&self, digest: Digest) -> Option<LockAct>
        ensures some { IfSome result (ActsOnLock digest.bytes) }
        ensures none { IfNone result ((act : TheAct) → ActsOnLock digest.bytes act → ⊥) }
    {
        self.lua.act(digest)
    }

    /// Returns a token of the registered program with these bytes and sizes. It is verified and registered if it is new.
    fn registered<R: Wait>(
        &self,
        rt: &R,
        alloc: Global,
        sizes: Sizes,
        bytes: &[u8],
    ) -> Result<ProgramToken, ScriptFault>
        ensures mine { IfOk result (λ token. IsOf self.now.registry.now token) }
        ensures ok { IfOk result (λ token. IsAdmitted bytes.now sizes (program_of token).program × ((program_of token).sizes ≡ sizes)) }
        ensures err { IfErr result (λ fault. (fault ≡ ScriptFault.NoMemory) ⊎ ((refusal : TheRefusal) × (fault ≡ ScriptFault.Admission refusal) × IsNotAdmitted greatest bytes.now sizes refusal)) }
    {
        let sent = SentProgram::new(sizes, bytes);
        if let Some(token) = self.registry.find_same(rt, &sent) {
            return Ok(token);
        }
        let verified = match admit(alloc, ProgramLimits::GREATEST, bytes, sizes) {
            Ok(verified) => verified,
            Err(fault) => return Err(fault_of(fault)),
        };
        match self.registry.register_sent(rt, &sent, verified) {
            Ok(token) => Ok(token),
            Err(_) => Err(ScriptFault::NoMemory),
        }
    }

    /// Reads the text, and registers its program.
    fn made<R: Wait>(
        &self,
        rt: &R,
        alloc: Global,
        digest: Digest,
        text: &[u8],
    ) -> Result<Script<'a>, ScriptFault>
        requires { digest.bytes ≡ sha1 text.now }
        ensures named { IfOk result (λ script. script.digest.bytes ≡ sha1 text.now) }
        ensures says { IfOk result (λ script. IsText text.now script.method script.reply script.with_now script.program.now) }
        ensures err { IfErr result (IsFaultOf text.now) }
    {
        let read = read(alloc, text)?;
        let token = self.registered(rt, alloc, read.head.sizes, &read.bytes)?;
        Ok(Script {
            digest,
            method: read.head.method,
            reply: read.head.reply,
            with_now: read.head.with_now,
            program: self.registry.get_by(&token),
        })
    }

    /// Notes the script of this text, whose bytes count among those of the registry. `NoMemory` if a request for memory is refused,
    /// or the bounds leave no room for it.
    fn note<R: Wait>(
        &self,
        rt: &R,
        alloc: Global,
        script: Script<'a>,
        text: &[u8],
    ) -> Result<(), NoMemory>
        requires { IsText text.now script.method script.reply script.with_now script.program.now }
    {
        let bytes = SCRIPT_BYTES.saturating_add(text.len() as u64);
        self.registry.take_bytes(rt, bytes)?;
        let noted = self.known.lock(rt).note(alloc, script, text);
        if !matches!(noted, Ok(true)) {
            self.registry.give_back(rt, bytes);
        }
        noted?;
        Ok(())
    }

    /// Returns the script of this text, which clients can then call by its digest. A text that is known takes no memory. A new one is
    /// read, its program verified and registered, and its text kept. Returns its first fault if it has one. Returns `NoMemory` if
    /// a request for memory is refused, if there are as many scripts as there may be, or if the registry's bounds leave no room for
    /// its program or its text; its program may be registered then. Waits while another thread loads or looks up a script.
    pub fn load<R: Wait>(
        &self,
        rt: &R,
        alloc: Global,
        text: &[u8],
    ) -> Result<Script<'a>, ScriptFault>
        ensures named { IfOk result (λ script. script.digest.bytes ≡ sha1 text.now) }
        ensures says { IfOk result (λ script. IsText text.now script.method script.reply script.with_now script.program.now) }
        ensures err { IfErr result (IsFaultOf text.now) }
    {
        let digest = digest_of(text);
        if let Some(script) = self.known.lock(rt).find_text(digest, text) {
            return Ok(script);
        }
        let script = self.made(rt, alloc, digest, text)?;
        self.note(rt, alloc, script, text)?;
        Ok(script)
    }

    /// Returns the texts of the scripts that were loaded after the first `count`, in this order: each is a text that `load` returned a
    /// script of. `NoMemory` if a request for memory is refused. Waits while another thread loads or looks up a script.
    pub fn after<R: Wait>(
        &self,
        rt: &R,
        alloc: Global,
        count: usize,
    ) -> Result<Vec<Vec<u8>>, NoMemory>
        ensures texts { IfOk result (λ texts. All (λ text. IsLoadedText text.items) texts.items) }
    {
        self.known.lock(rt).after(alloc, count)
    }
}
