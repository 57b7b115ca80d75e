//! Writes responses.
ghost use Rattle.std.specs.Prelude.{◌≡◌, ◌≢◌, ◌≤◌, ◌⊎◌, ◌∷◌, ◌++◌, [], false, length, map, Some, OnOk, OnErr};
ghost use Rattle.bpf_model.specs.declared.limits.TheConstants.{KEY_BYTES, VALUE_BYTES};
ghost use Rattle.client_protocol.specs.declared.response.Response.TheVariants.{Value as Answered, Item};
ghost use Rattle.client_protocol.specs.Responses.{response_frame, response_frames, response_of};
ghost use Rattle.sessions.specs.Answering.{item_of, end_of, has_too_long, responses_of, sendable, walk_responses};
ghost use Rattle.devices.specs.Devices.{CanWrite, TakesBytes, TakesFront, TakesPart};
ghost use Rattle.sessions.specs.Sessions.{refusal};

use crate::session::SessionEnd;
use crate::session::service::Answer;
use atomic_methods::WalkReply;
use bins::{Counts, MergedEntries};
use bpf_model::Value;
use bpf_model::limits::VALUE_BYTES;
use client_protocol::{Limits, ShortResponse, Version, item_head, value_head};
use devices::{Failed, Sink, write_all};

/// This refusal replaces the responses if a value is too long for the session's version.
const VALUE_TOO_LONG: u8 = 65;

/// Writes the response's frame.
fn send_one<W: Sink>(writer: &mut W, response: &ShortResponse) -> Result<(), Failed>
    requires { CanWrite (W.state writer.old) }
    ensures ok { OnOk result (TakesBytes (W.state writer.old) (W.state writer.new) (response_frame (response_of response.now))) }
    ensures err { OnErr result (TakesPart (W.state writer.old) (W.state writer.new) (response_frame (response_of response.now))) }
{
    let frame = response.frame();
    write_all(writer, frame.as_slice())
}

/// Writes the frame that replaces the responses if a value is too long.
fn send_too_long<W: Sink>(writer: &mut W) -> Result<(), Failed>
    requires { CanWrite (W.state writer.old) }
    ensures ok { OnOk result (TakesBytes (W.state writer.old) (W.state writer.new) (refusal 65)) }
    ensures err { OnErr result (TakesPart (W.state writer.old) (W.state writer.new) (refusal 65)) }
{
    let number = VALUE_TOO_LONG;
    send_one(writer, &ShortResponse::Refused { number, place: 0 })
}

/// Writes the bytes before a value in a frame, and then the value, in place.
fn send_parts<W: Sink>(writer: &mut W, head: &[u8], value: &[u8]) -> Result<(), Failed>
    requires { CanWrite (W.state writer.old) }
    ensures ok { OnOk result (TakesBytes (W.state writer.old) (W.state writer.new) (head.now ++ value.now)) }
    ensures err { OnErr result (TakesPart (W.state writer.old) (W.state writer.new) (head.now ++ value.now)) }
{
    write_all(writer, head)?;
    write_all(writer, value)?;
    Ok(())
}

/// Writes the frame of an item.
fn send_item<W: Sink>(writer: &mut W, key: &[u8], value: &[u8]) -> Result<(), Failed>
    requires writer { CanWrite (W.state writer.old) }
    requires key { length key.now ≤ KEY_BYTES }
    requires value { length value.now ≤ VALUE_BYTES }
    ensures ok { OnOk result (TakesBytes (W.state writer.old) (W.state writer.new) (response_frame (Item key.now value.now))) }
    ensures err { OnErr result (TakesPart (W.state writer.old) (W.state writer.new) (response_frame (Item key.now value.now))) }
{
    let head = item_head(key, value);
    send_parts(writer, head.as_slice(), value)
}

/// Writes a frame for each item.
fn send_items<W: Sink>(writer: &mut W, items: &MergedEntries) -> Result<(), Failed>
    requires { CanWrite (W.state writer.old) }
    ensures ok { OnOk result (TakesBytes (W.state writer.old) (W.state writer.new) (response_frames (map item_of items.now))) }
    ensures err { OnErr result (TakesPart (W.state writer.old) (W.state writer.new) (response_frames (map item_of items.now))) }
{
    for position in 0..items.len() {
        let (key, value) = items.get(position);
        send_item(writer, key, value)?;
    }
    Ok(())
}

/// Tests whether the value of an item is longer than may be sent after this Hello.
fn have_too_long(hello: Option<Version>, items: &MergedEntries) -> bool
    ensures { result ≡ has_too_long hello (map item_of items.now) }
{
    let most = Limits::after(hello).value;
    for position in 0..items.len() {
        let (_, value) = items.get(position);
        // If the longest value may be sent, the compiled program reads none.
        if most < VALUE_BYTES && value.len() > most {
            return true;
        }
    }
    false
}

/// Returns the response after the items of a walk.
pub fn end_of(counts: Counts) -> ShortResponse
    ensures { response_of result ≡ end_of counts }
{
    ShortResponse::End {
        scanned: counts.scanned,
        given: counts.given,
        unfit: counts.unfit,
    }
}

/// Writes the frame of the response with this value, in place; or one refusal if it is too long.
fn send_value<W: Sink>(writer: &mut W, hello: Option<Version>, value: &Value) -> Result<(), Failed>
    requires { CanWrite (W.state writer.old) }
    ensures ok { OnOk result (TakesBytes (W.state writer.old) (W.state writer.new)
        (response_frames (sendable hello (Answered (Some value.now) ∷ [])))) }
    ensures err { OnErr result (TakesPart (W.state writer.old) (W.state writer.new)
        (response_frames (sendable hello (Answered (Some value.now) ∷ [])))) }
{
    let bytes = value.as_slice();
    if bytes.len() > Limits::after(hello).value {
        return send_too_long(writer);
    }
    send_parts(writer, &value_head(bytes), bytes)
}

/// Writes the frames of all items of a walk, and of its end.
pub(crate) fn send_whole<W: Sink>(writer: &mut W, reply: &WalkReply) -> Result<(), Failed>
    requires { CanWrite (W.state writer.old) }
    ensures ok { OnOk result (TakesBytes (W.state writer.old) (W.state writer.new) (response_frames (walk_responses reply.now))) }
    ensures err { OnErr result (TakesPart (W.state writer.old) (W.state writer.new) (response_frames (walk_responses reply.now))) }
{
    send_items(writer, &reply.items)?;
    send_one(writer, &end_of(reply.counts))?;
    Ok(())
}

/// How a sink takes the reply of a walk.
pub trait Replies<W: Sink> {
    /// Writes the frames of all items of a walk, and of its end.
    fn send_reply(writer: &mut W, reply: WalkReply) -> Result<(), Failed>
        requires { CanWrite (W.state writer.old) }
        ensures ok { OnOk result (TakesBytes (W.state writer.old) (W.state writer.new) (response_frames (walk_responses reply))) }
        ensures err { OnErr result (TakesPart (W.state writer.old) (W.state writer.new) (response_frames (walk_responses reply))) };
}

/// All frames of a reply are made and written at once.
pub struct AtOnce;

impl<W: Sink> Replies<W> for AtOnce {
    fn send_reply(writer: &mut W, reply: WalkReply) -> Result<(), Failed> {
        send_whole(writer, &reply)
    }
}

/// Writes the reply of a walk; or one refusal if a value is too long.
fn send_walk<W: Sink, K: Replies<W>>(
    writer: &mut W,
    hello: Option<Version>,
    reply: WalkReply,
) -> Result<(), Failed>
    requires { CanWrite (W.state writer.old) }
    ensures ok { OnOk result (TakesBytes (W.state writer.old) (W.state writer.new)
        (response_frames (sendable hello (walk_responses reply)))) }
    ensures err { OnErr result (TakesPart (W.state writer.old) (W.state writer.new)
        (response_frames (sendable hello (walk_responses reply)))) }
{
    if have_too_long(hello, &reply.items) {
        return send_too_long(writer);
    }
    K::send_reply(writer, reply)
}

/// Writes the frames of all responses of an answer to a request after this Hello; if a value was found, it is this one. A
/// value that is longer than the version allows is not sent: one refusal then replaces all responses.
pub fn send<W: Sink, K: Replies<W>>(
    writer: &mut W,
    hello: Option<Version>,
    answer: Answer,
    value: &Value,
) -> Result<(), Failed>
    requires { CanWrite (W.state writer.old) }
    ensures ok { OnOk result (TakesBytes (W.state writer.old) (W.state writer.new)
        (response_frames (sendable hello (responses_of answer value.now)))) }
    ensures err { OnErr result (TakesPart (W.state writer.old) (W.state writer.new)
        (response_frames (sendable hello (responses_of answer value.now)))) }
{
    match answer {
        Answer::One(response) => send_one(writer, &response),
        Answer::Found => send_value(writer, hello, value),
        Answer::Walk(reply) => send_walk::<W, K>(writer, hello, reply),
    }
}

/// Writes the frame of a refusal, and flushes the sink.
fn send_refusal<W: Sink>(writer: &mut W, number: u8) -> Result<(), Failed>
    requires { CanWrite (W.state writer.old) }
    ensures ok { OnOk result (TakesBytes (W.state writer.old) (W.state writer.new) (refusal number)) }
    ensures sent { OnOk result ((W.state writer.new).keeps_back ≡ false) }
    ensures err { OnErr result (TakesFront (W.state writer.old) (W.state writer.new) (refusal number)) }
{
    send_one(writer, &ShortResponse::Refused { number, place: 0 })?;
    writer.flush()?;
    Ok(())
}

/// Writes and flushes a refusal at the end of a session. Returns that end, or that the write failed.
pub fn refuse<W: Sink>(writer: &mut W, number: u8, end: SessionEnd) -> SessionEnd
    requires count { CanWrite (W.state writer.old) }
    requires end { end ≢ SessionEnd.WriteFailed }
    ensures whole { result ≡ end → TakesBytes (W.state writer.old) (W.state writer.new) (refusal number) }
    ensures sent { result ≡ end → (W.state writer.new).keeps_back ≡ false }
    ensures front { result ≡ SessionEnd.WriteFailed → TakesFront (W.state writer.old) (W.state writer.new) (refusal number) }
    ensures either { (result ≡ end) ⊎ (result ≡ SessionEnd.WriteFailed) }
{
    match send_refusal(writer, number) {
        Ok(()) => end,
        Err(Failed) => SessionEnd::WriteFailed,
    }
}
