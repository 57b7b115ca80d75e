//! The scripts that are known by their digests.
ghost use Rattle.std.specs.Prelude.{◌≡◌, All, IfOk, IfSome};
ghost use Rattle.redis_scripts.specs.Scripts.{IsLoadedText, IsText, IsScript};

use crate::head::{Method, ReplyKind};
use bpf_model::NoMemory;
use program_registry::Digest;
use std::alloc::Global;
use std::collections::BTreeMap;
use verifier::Verified;

/// A script that clients can call by its digest. You can copy it.
#[derive(Clone, Copy)]
pub struct Script<'a> {
    pub digest: Digest,
    pub method: Method,
    pub reply: ReplyKind,
    /// Whether the program's argument begins with the time, in 8 bytes, the low one first.
    pub with_now: bool,
    pub program: &'a Verified,
    ghost is_script: { IsScript digest.bytes method reply with_now program.now },
}

/// A script and its text.
#[derive(Drop)]
struct Noted<'a> {
    script: Script<'a>,
    text: Vec<u8>,
    ghost says: { IsText text.items script.method script.reply script.with_now script.program.now },
}

/// The scripts that were loaded, in this order, the place of each by its digest, and how many there may be. A digest alone isn't
/// trusted: a text is compared with the one that was loaded.
#[derive(Drop)]
pub(crate) struct Known<'a> {
    scripts: Vec<Noted<'a>>,
    places: BTreeMap<Digest, usize>,
    most: usize,
}

impl<'a> Known<'a> {
    /// Has no scripts, and takes at most `most`.
    pub(crate) fn new(alloc: Global, most: usize) -> Known<'a> {
        Known {
            scripts: Vec::new(alloc),
            places: BTreeMap::new(alloc),
            most,
        }
    }

    /// Returns what was noted for this digest.
    fn noted(&self, digest: Digest) -> Option<&Noted<'a>> {
        let place = *self.places.get(&digest)?;
        self.scripts.get(place)
    }

    /// Returns the script with this digest.
    pub(crate) fn find(&self, digest: Digest) -> Option<Script<'a>>
        ensures named { IfSome result (λ script. script.digest.bytes ≡ digest.bytes) }
        ensures script { IfSome result (λ script. IsScript digest.bytes script.method script.reply script.with_now script.program.now) }
    {
        let noted = self.noted(digest)?;
        let script = noted.script;
        if script.digest == digest {
            Some(script)
        } else {
            None
        }
    }

    /// Returns the script of this very text, if it was loaded.
    pub(crate) fn find_text(&self, digest: Digest, text: &[u8]) -> Option<Script<'a>>
        ensures named { IfSome result (λ script. script.digest.bytes ≡ digest.bytes) }
        ensures says { IfSome result (λ script. IsText text.now script.method script.reply script.with_now script.program.now) }
    {
        let noted = self.noted(digest)?;
        let script = noted.script;
        if script.digest == digest && noted.text.as_slice() == text {
            Some(script)
        } else {
            None
        }
    }

    /// Notes the script of this text, unless its digest is noted. Returns whether its text is kept now. `NoMemory` if a request for
    /// memory is refused, or if there are as many scripts as there may be.
    pub(crate) fn note(
        &mut self,
        alloc: Global,
        script: Script<'a>,
        text: &[u8],
    ) -> Result<bool, NoMemory>
        requires { IsText text.now script.method script.reply script.with_now script.program.now }
    {
        if self.places.contains_key(&script.digest) {
            return Ok(false);
        }
        let place = self.scripts.len();
        if place >= self.most {
            return Err(NoMemory);
        }
        let text = Vec::from_slice(alloc, text)?;
        self.scripts.reserve(1)?;
        self.places.insert(script.digest, place)?;
        self.scripts.push_reserved(Noted { script, text });
        Ok(true)
    }

    /// Returns copies of the texts of the scripts after the first `count`, in the order in which they were noted. `NoMemory` if a
    /// request for memory is refused.
    pub(crate) fn after(&self, alloc: Global, count: usize) -> Result<Vec<Vec<u8>>, NoMemory>
        ensures texts { IfOk result (λ texts. All (λ text. IsLoadedText text.items) texts.items) }
    {
        let mut texts = Vec::new(alloc);
        for place in count..self.scripts.len() {
            let noted = &self.scripts[place];
            let text = Vec::from_slice(alloc, noted.text.as_slice())?;
            texts.push(text)?;
        }
        Ok(texts)
    }
}
