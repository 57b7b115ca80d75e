//! What is counted of requests in frames.

use bpf_model::NoMemory;
use client_protocol::{Request, RequestView, ShortResponse};
use server_state::WorkerCounts;
use sessions::{Answer, ConversationEnd};

/// The names of requests, by their kinds.
static NAMES: [&str; 17] = [
    "hello",
    "register",
    "get",
    "put",
    "put_if_absent",
    "remove",
    "remove_if",
    "replace",
    "replace_if",
    "compute",
    "compute_if_absent",
    "compute_if_present",
    "merge",
    "search",
    "for_each",
    "replace_all",
    "count",
];

/// Returns the name of the requests of this kind, in small letters. `None` if there is no such kind; they are numbered from 0 on.
pub fn request_name(kind: usize) -> Option<&'static str> {
    NAMES.get(kind).copied()
}

/// Returns the kind of a request.
#[inline(always)]
fn kind_of(request: &Request) -> usize {
    match request.view() {
        RequestView::Hello { .. } => 0,
        RequestView::Register { .. } => 1,
        RequestView::Get { .. } => 2,
        RequestView::Put { .. } => 3,
        RequestView::PutIfAbsent { .. } => 4,
        RequestView::Remove { .. } => 5,
        RequestView::RemoveIf { .. } => 6,
        RequestView::Replace { .. } => 7,
        RequestView::ReplaceIf { .. } => 8,
        RequestView::Compute { .. } => 9,
        RequestView::ComputeIfAbsent { .. } => 10,
        RequestView::ComputeIfPresent { .. } => 11,
        RequestView::Merge { .. } => 12,
        RequestView::Search { .. } => 13,
        RequestView::ForEach { .. } => 14,
        RequestView::ReplaceAll { .. } => 15,
        RequestView::Count => 16,
    }
}

/// Counts a request.
#[inline(always)]
pub(crate) fn count_request(counts: &WorkerCounts, request: &Request) {
    counts.count_request(kind_of(request));
}

/// Counts an answer, if it is a refusal.
#[inline(always)]
pub(crate) fn count_answer(counts: &WorkerCounts, answer: &Answer) {
    if let Answer::One(ShortResponse::Refused { number, .. }) = answer {
        counts.count_refused(*number);
    }
}

/// Counts the refusal with which a conversation ends, if there is one.
pub(crate) fn count_end(counts: &WorkerCounts, taken: &Result<(), ConversationEnd>) {
    match taken {
        Err(ConversationEnd::Refused(fault)) => counts.count_refused(fault.number()),
        Err(ConversationEnd::NoMemory) => counts.count_refused(NoMemory::NUMBER),
        Ok(()) | Err(ConversationEnd::WriteFailed) => {}
    }
}
