//! The numbers as Prometheus reads them.
ghost use Rattle.std.specs.Prelude.{◌≡◌, ◌+◌, ◌*◌, ◌≤◌, ◌++◌, length, if◌then◌else◌};
ghost use Rattle.arrayvec.specs.ArrayVec.{array_vec_len};
ghost use Rattle.metrics_page.specs.Pages as spec;
ghost use Rattle.metrics_page.specs.Pages.{about, kind_text, metric, series, series_line, series_lines, text};

use crate::buffer::append;
use crate::numbers::{LABEL_BYTES, Labelled, MOST_COMMANDS, MOST_REFUSALS, MOST_REQUESTS, Numbers};
use arrayvec::ArrayVec;
use itoa::Buffer;

/// The bytes that the lines of one number take at most.
pub(crate) const METRIC_BYTES: usize = 288;

/// The bytes that the line of a number with a label takes at most.
const LABELLED_BYTES: usize = 104;

/// Bytes are told apart by this many kinds.
const BYTE_KINDS: usize = 4;

/// The numbers with labels are at most this many.
const MOST_LABELLED: usize = MOST_COMMANDS + MOST_REQUESTS + MOST_REFUSALS + BYTE_KINDS;

/// The room for the lines of all numbers.
pub(crate) const TEXT_BYTES: usize = 20 * METRIC_BYTES + MOST_LABELLED * LABELLED_BYTES;

/// The lines of the numbers.
pub(crate) type Text = ArrayVec<u8, TEXT_BYTES>;

/// Of which kind a number is.
#[derive(Clone, Copy, Debug, PartialEq, Eq)]
pub enum Kind {
    /// It goes up and down.
    Gauge,
    /// It counts up from the server's begin on.
    Counter,
}

impl Kind {
    /// Returns what the line of the kind ends with.
    fn text(self) -> &'static str
        ensures value { result.now ≡ kind_text self }
        ensures short { length result.now ≤ 9 }
    {
        match self {
            Kind::Gauge => " gauge\n",
            Kind::Counter => " counter\n",
        }
    }
}

/// Appends the lines of a number of this kind and name, for which there is room.
fn put(text: &mut Text, kind: Kind, name: &str, help: &str, number: u64)
    requires room { array_vec_len text.old + METRIC_BYTES ≤ TEXT_BYTES }
    requires name { length name.now ≤ 32 }
    requires help { length help.now ≤ 96 }
    ensures items { text.new.items ≡ text.old.items ++ metric kind name.now help.now number }
    ensures len { array_vec_len text.new ≤ array_vec_len text.old + METRIC_BYTES }
{
    let mut digits = Buffer::new();
    append(text, b"# HELP ");
    append(text, name.as_bytes());
    append(text, b" ");
    append(text, help.as_bytes());
    append(text, b"\n# TYPE ");
    append(text, name.as_bytes());
    append(text, kind.text().as_bytes());
    append(text, name.as_bytes());
    append(text, b" ");
    append(text, digits.format(number).as_bytes());
    append(text, b"\n");
}

/// Appends the numbers of the map and the process.
fn put_process(text: &mut Text, numbers: &Numbers)
    requires { array_vec_len text.old + 3 * METRIC_BYTES ≤ TEXT_BYTES }
    ensures items { text.new.items ≡ text.old.items ++ spec.process numbers.now }
    ensures len { array_vec_len text.new ≤ array_vec_len text.old + 3 * METRIC_BYTES }
{
    put(
        text,
        Kind::Gauge,
        "mapd_entries",
        "Entries of the map.",
        numbers.entries,
    );
    put(
        text,
        Kind::Gauge,
        "mapd_resident_bytes",
        "Memory of the process.",
        numbers.resident_bytes,
    );
    put(
        text,
        Kind::Gauge,
        "mapd_uptime_seconds",
        "Time since the server began.",
        numbers.uptime_seconds,
    );
}

/// Appends the numbers of clients.
fn put_clients(text: &mut Text, numbers: &Numbers)
    requires { array_vec_len text.old + 3 * METRIC_BYTES ≤ TEXT_BYTES }
    ensures items { text.new.items ≡ text.old.items ++ spec.clients numbers.now }
    ensures len { array_vec_len text.new ≤ array_vec_len text.old + 3 * METRIC_BYTES }
{
    put(
        text,
        Kind::Gauge,
        "mapd_clients",
        "Clients that are connected.",
        numbers.clients,
    );
    put(
        text,
        Kind::Counter,
        "mapd_clients_came_total",
        "Clients that came, also those that were turned away.",
        numbers.clients_came,
    );
    put(
        text,
        Kind::Counter,
        "mapd_clients_refused_total",
        "Clients that were turned away, since there was no room.",
        numbers.clients_refused,
    );
}

/// Appends what numbers of this name mean, and their kind.
fn put_about(text: &mut Text, kind: Kind, name: &str, help: &str)
    requires room { array_vec_len text.old + METRIC_BYTES ≤ TEXT_BYTES }
    requires name { length name.now ≤ 32 }
    requires help { length help.now ≤ 96 }
    ensures items { text.new.items ≡ text.old.items ++ about kind name.now help.now }
    ensures len { array_vec_len text.new ≤ array_vec_len text.old + METRIC_BYTES }
{
    append(text, b"# HELP ");
    append(text, name.as_bytes());
    append(text, b" ");
    append(text, help.as_bytes());
    append(text, b"\n# TYPE ");
    append(text, name.as_bytes());
    append(text, kind.text().as_bytes());
}

/// Appends the line of one number, with its label of this key.
fn put_labelled(text: &mut Text, name: &str, key: &str, label: &[u8], number: u64)
    requires room { array_vec_len text.old + LABELLED_BYTES ≤ TEXT_BYTES }
    requires name { length name.now ≤ 32 }
    requires key { length key.now ≤ 16 }
    requires label { length label.now ≤ LABEL_BYTES }
    ensures items { text.new.items ≡ text.old.items ++ series_line name.now key.now label.now number }
    ensures len { array_vec_len text.new ≤ array_vec_len text.old + LABELLED_BYTES }
{
    let mut digits = Buffer::new();
    append(text, name.as_bytes());
    append(text, b"{");
    append(text, key.as_bytes());
    append(text, b"=\"");
    append(text, label);
    append(text, b"\"} ");
    append(text, digits.format(number).as_bytes());
    append(text, b"\n");
}

/// Appends the lines of numbers, whose labels are of this key.
fn put_each(text: &mut Text, name: &str, key: &str, all: &[Labelled])
    requires room { array_vec_len text.old + length all.now * LABELLED_BYTES ≤ TEXT_BYTES }
    requires name { length name.now ≤ 32 }
    requires key { length key.now ≤ 16 }
    ensures items { text.new.items ≡ text.old.items ++ series_lines name.now key.now all.now }
    ensures len { array_vec_len text.new ≤ array_vec_len text.old + length all.now * LABELLED_BYTES }
{
    for one in all {
        put_labelled(text, name, key, one.label.as_slice(), one.number);
    }
}

/// Appends the lines of numbers that count up, whose labels are of this key, and what they mean.
fn put_series(text: &mut Text, name: &str, help: &str, key: &str, all: &[Labelled])
    requires room { array_vec_len text.old + METRIC_BYTES + length all.now * LABELLED_BYTES ≤ TEXT_BYTES }
    requires name { length name.now ≤ 32 }
    requires help { length help.now ≤ 96 }
    requires key { length key.now ≤ 16 }
    ensures items { text.new.items ≡ text.old.items ++ series name.now help.now key.now all.now }
    ensures len { array_vec_len text.new ≤ array_vec_len text.old + METRIC_BYTES + length all.now * LABELLED_BYTES }
{
    put_about(text, Kind::Counter, name, help);
    put_each(text, name, key, all);
}

/// Appends the numbers of commands.
fn put_commands(text: &mut Text, numbers: &Numbers)
    requires { array_vec_len text.old + 2 * METRIC_BYTES + MOST_COMMANDS * LABELLED_BYTES ≤ TEXT_BYTES }
    ensures items { text.new.items ≡ text.old.items ++ spec.commands numbers.now }
    ensures len { array_vec_len text.new ≤ array_vec_len text.old + 2 * METRIC_BYTES + MOST_COMMANDS * LABELLED_BYTES }
{
    put_series(
        text,
        "mapd_commands_total",
        "Commands on the Redis port, right ones and wrong ones.",
        "command",
        numbers.commands.as_slice(),
    );
    put(
        text,
        Kind::Counter,
        "mapd_walks_total",
        "Commands on the Redis port that walked over the whole map.",
        numbers.walks,
    );
}

/// Appends the numbers of requests.
fn put_requests(text: &mut Text, numbers: &Numbers)
    requires { array_vec_len text.old + METRIC_BYTES + MOST_REQUESTS * LABELLED_BYTES ≤ TEXT_BYTES }
    ensures items { text.new.items ≡ text.old.items ++ spec.requests numbers.now }
    ensures len { array_vec_len text.new ≤ array_vec_len text.old + METRIC_BYTES + MOST_REQUESTS * LABELLED_BYTES }
{
    put_series(
        text,
        "mapd_requests_total",
        "Requests in frames.",
        "request",
        numbers.requests.as_slice(),
    );
}

/// Appends the numbers of refusals.
fn put_refusals(text: &mut Text, numbers: &Numbers)
    requires { array_vec_len text.old + METRIC_BYTES + MOST_REFUSALS * LABELLED_BYTES ≤ TEXT_BYTES }
    ensures items { text.new.items ≡ text.old.items ++ spec.refusals numbers.now }
    ensures len { array_vec_len text.new ≤ array_vec_len text.old + METRIC_BYTES + MOST_REFUSALS * LABELLED_BYTES }
{
    put_series(
        text,
        "mapd_refusals_total",
        "Refusals in frames by their numbers; OOM: memory was refused to commands on the Redis port.",
        "number",
        numbers.refusals.as_slice(),
    );
}

/// Appends the numbers of keys.
fn put_keys(text: &mut Text, numbers: &Numbers)
    requires { array_vec_len text.old + 3 * METRIC_BYTES ≤ TEXT_BYTES }
    ensures items { text.new.items ≡ text.old.items ++ spec.keys numbers.now }
    ensures len { array_vec_len text.new ≤ array_vec_len text.old + 3 * METRIC_BYTES }
{
    put(
        text,
        Kind::Counter,
        "mapd_expired_total",
        "Entries that sweeps took away, since their time was over.",
        numbers.expired,
    );
    put(
        text,
        Kind::Counter,
        "mapd_hits_total",
        "Reads of a key on the Redis port that found a value.",
        numbers.hits,
    );
    put(
        text,
        Kind::Counter,
        "mapd_misses_total",
        "Reads of a key on the Redis port that found none.",
        numbers.misses,
    );
}

/// Returns 1 if it is so, else 0.
fn one_if(is_so: bool) -> u64
    ensures { result ≡ (if is_so then 1 else 0) }
{
    if is_so { 1 } else { 0 }
}

/// Appends the numbers of saves.
fn put_saves(text: &mut Text, numbers: &Numbers)
    requires { array_vec_len text.old + 2 * METRIC_BYTES ≤ TEXT_BYTES }
    ensures items { text.new.items ≡ text.old.items ++ spec.saves numbers.now }
    ensures len { array_vec_len text.new ≤ array_vec_len text.old + 2 * METRIC_BYTES }
{
    put(
        text,
        Kind::Gauge,
        "mapd_last_save_seconds",
        "When the last save was written, in seconds since the epoch; 0: never.",
        numbers.last_save_seconds,
    );
    put(
        text,
        Kind::Gauge,
        "mapd_save_failing",
        "1 if the last save could not be written, else 0.",
        one_if(numbers.is_save_failing),
    );
}

/// Appends the numbers of waits and holds.
fn put_waits(text: &mut Text, numbers: &Numbers)
    requires { array_vec_len text.old + 3 * METRIC_BYTES ≤ TEXT_BYTES }
    ensures items { text.new.items ≡ text.old.items ++ spec.waits numbers.now }
    ensures len { array_vec_len text.new ≤ array_vec_len text.old + 3 * METRIC_BYTES }
{
    put(
        text,
        Kind::Counter,
        "mapd_stripe_waits_total",
        "Calls that waited for a stripe which another held.",
        numbers.stripe_waits,
    );
    put(
        text,
        Kind::Gauge,
        "mapd_longest_wait_microseconds",
        "The longest that a call waited for a stripe, at least.",
        numbers.longest_wait_micros,
    );
    put(
        text,
        Kind::Gauge,
        "mapd_longest_hold_microseconds",
        "The longest that a walk, a save or a sweep held a stripe.",
        numbers.longest_hold_micros,
    );
}

/// Appends the numbers of bytes, by kinds.
fn put_bytes(text: &mut Text, numbers: &Numbers)
    requires { array_vec_len text.old + METRIC_BYTES + BYTE_KINDS * LABELLED_BYTES ≤ TEXT_BYTES }
    ensures items { text.new.items ≡ text.old.items ++ spec.bytes numbers.now }
    ensures len { array_vec_len text.new ≤ array_vec_len text.old + METRIC_BYTES + BYTE_KINDS * LABELLED_BYTES }
{
    put_about(text, Kind::Gauge, "mapd_bytes", "Memory by what it is for.");
    put_labelled(text, "mapd_bytes", "kind", b"rows", numbers.row_bytes);
    put_labelled(text, "mapd_bytes", "kind", b"index", numbers.index_bytes);
    put_labelled(
        text,
        "mapd_bytes",
        "kind",
        b"programs",
        numbers.program_bytes,
    );
    put_labelled(
        text,
        "mapd_bytes",
        "kind",
        b"sessions",
        numbers.session_bytes,
    );
}

/// Returns the lines of the numbers.
pub(crate) fn text_of(numbers: &Numbers) -> Text
    ensures { result.items ≡ text numbers.now }
{
    let mut text = Text::new();
    put_process(&mut text, numbers);
    put_clients(&mut text, numbers);
    put_commands(&mut text, numbers);
    put_requests(&mut text, numbers);
    put_refusals(&mut text, numbers);
    put_keys(&mut text, numbers);
    put_saves(&mut text, numbers);
    put_waits(&mut text, numbers);
    put_bytes(&mut text, numbers);
    text
}
