//! Requests for calls, as calls of the map's methods.
ghost use Rattle.std.specs.Prelude.{◌≡◌, MatchOption, option_copied};
ghost use Rattle.atomic_methods.specs.Invocations.{invocation_of};
ghost use Rattle.sessions.specs.Asking.{call, unknown, asked, may_change, named, IsCall, NamesProgram};

use atomic_methods::Call;
use bpf_model::Value;
use client_protocol::{Request, RequestView};
use verifier::Verified;

/// Returns the number of the program that a call names, if it names one.
pub fn named_program(request: &Request) -> Option<u64>
    ensures { result ≡ named request.now }
{
    match request.view() {
        RequestView::Compute { program, .. } => Some(program),
        RequestView::ComputeIfAbsent { program, .. } => Some(program),
        RequestView::ComputeIfPresent { program, .. } => Some(program),
        RequestView::Merge { program, .. } => Some(program),
        _ => None,
    }
}

/// Tests whether a request may change the map or the programs.
pub fn may_change(request: &Request) -> bool
    ensures { result ≡ may_change request.now }
{
    match request.view() {
        RequestView::Hello { .. } => false,
        RequestView::Get { .. } => false,
        RequestView::Search { .. } => false,
        RequestView::ForEach { .. } => false,
        RequestView::Count => false,
        _ => true,
    }
}

/// Returns the call of a method that runs a program, or `None` if there is no program with the number.
fn program_call<'a>(request: &'a Request, program: Option<&'a Verified>) -> Option<Call<'a>>
    requires { NamesProgram request.now }
    ensures { MatchOption result (asked (λ _. option_copied program.entry) request.now ≡ unknown)
        (λ made. asked (λ _. option_copied program.entry) request.now ≡ call (invocation_of made)) }
{
    let program = program?;
    let made = match request.view() {
        RequestView::Compute { key, arg, .. } => Call::Compute { key, program, arg },
        RequestView::ComputeIfAbsent { key, arg, .. } => Call::ComputeIfAbsent {
            key,
            program,
            arg,
        },
        RequestView::ComputeIfPresent { key, arg, .. } => Call::ComputeIfPresent {
            key,
            program,
            arg,
        },
        RequestView::Merge { key, value, .. } => Call::Merge {
            key,
            value,
            program,
        },
        _ => unreachable!(),
    };
    Some(made)
}

/// Returns the requested call, with the program whose number it names, or `None` if it names one that doesn't exist. The call
/// borrows the request's key and values.
pub fn call_of<'a>(request: &'a Request, program: Option<&'a Verified>) -> Option<Call<'a>>
    requires { IsCall request.now }
    ensures { MatchOption result (asked (λ _. option_copied program.entry) request.now ≡ unknown)
        (λ made. asked (λ _. option_copied program.entry) request.now ≡ call (invocation_of made)) }
{
    let made = match request.view() {
        RequestView::Get { key } => Call::Get { key },
        RequestView::Put { key, value } => Call::Put { key, value },
        RequestView::PutIfAbsent { key, value } => Call::PutIfAbsent { key, value },
        RequestView::Remove { key } => Call::Remove { key },
        RequestView::RemoveIf { key, expected } => Call::RemoveIf { key, expected },
        RequestView::Replace { key, value } => Call::Replace { key, value },
        RequestView::ReplaceIf {
            key,
            expected,
            value,
        } => Call::ReplaceIf {
            key,
            expected,
            value,
        },
        _ => return program_call(request, program),
    };
    Some(made)
}

/// Returns a copy of a walk's argument that you can keep. Takes no memory.
pub fn argument_of(arg: Option<&Value>) -> Option<Value>
    ensures { result ≡ option_copied arg.entry }
{
    match arg {
        Some(value) => Some(value.copied()),
        None => None,
    }
}
