//! How the replies of single calls are told.
ghost use Rattle.std.specs.Prelude.{◌≡◌, ℕ, List, is_some, is_none};
ghost use Rattle.atomic_methods.specs.Invocations.{Invocation};
ghost use Rattle.timed_bins.specs.declared.timing.DeadlineChange.{DeadlineChange as TheChange};
ghost use Rattle.bin_stripes.specs.Passes.{PassState};
ghost use Rattle.redis_service.specs.Calls.{Made, AnswersCall, value_in, is_done, bulk};
ghost use Rattle.redis_service.specs.Replied.{replied_bytes};
ghost use Rattle.redis_service.specs.Texts.{ok_line, ok_if, one_if};

use crate::calls::{Outcome, has_value};
use crate::reply::Replied;
use atomic_methods::ReplyKind;
use bpf_model::NoMemory;

/// OK, or nothing.
fn ok_if(is: bool) -> Replied
    ensures { (found : List ℕ) → replied_bytes result found ≡ ok_if is }
{
    if is {
        Replied::Simple(b"OK")
    } else {
        Replied::Nothing
    }
}

/// 1 or 0.
pub fn one_if(is: bool) -> Replied
    ensures { (found : List ℕ) → replied_bytes result found ≡ one_if is }
{
    Replied::Integer(if is { 1 } else { 0 })
}

/// Says OK.
pub fn say_ok(made: Outcome) -> Replied
    ensures { (now : ℕ) (change : TheChange) (old new : PassState) (invocation : Invocation) (found : List ℕ)
        → Made now change made old invocation found new → AnswersCall now change old invocation (λ reply. ok_line) (replied_bytes result found) new }
{
    match made {
        Ok(_) => ok_if(true),
        Err(NoMemory) => Replied::NoMemory,
    }
}

/// Says the value of the reply, or nothing.
pub fn say_value(made: Outcome) -> Replied
    ensures { (now : ℕ) (change : TheChange) (old new : PassState) (invocation : Invocation) (found : List ℕ)
        → Made now change made old invocation found new → AnswersCall now change old invocation (λ reply. bulk (value_in reply)) (replied_bytes result found) new }
{
    match made {
        Ok(timed) if has_value(timed.kind) => Replied::Found,
        Ok(_) => Replied::Nothing,
        Err(NoMemory) => Replied::NoMemory,
    }
}

/// Says OK if the reply has no value, and else nothing.
pub fn say_ok_if_none(made: Outcome) -> Replied
    ensures { (now : ℕ) (change : TheChange) (old new : PassState) (invocation : Invocation) (found : List ℕ)
        → Made now change made old invocation found new → AnswersCall now change old invocation (λ reply. ok_if (is_none (value_in reply))) (replied_bytes result found) new }
{
    match made {
        Ok(timed) => ok_if(!has_value(timed.kind)),
        Err(NoMemory) => Replied::NoMemory,
    }
}

/// Says OK if the reply has a value, and else nothing.
pub fn say_ok_if_some(made: Outcome) -> Replied
    ensures { (now : ℕ) (change : TheChange) (old new : PassState) (invocation : Invocation) (found : List ℕ)
        → Made now change made old invocation found new → AnswersCall now change old invocation (λ reply. ok_if (is_some (value_in reply))) (replied_bytes result found) new }
{
    match made {
        Ok(timed) => ok_if(has_value(timed.kind)),
        Err(NoMemory) => Replied::NoMemory,
    }
}

/// Says OK if the key's value was the expected one, and else nothing.
pub fn say_ok_if_done(made: Outcome) -> Replied
    ensures { (now : ℕ) (change : TheChange) (old new : PassState) (invocation : Invocation) (found : List ℕ)
        → Made now change made old invocation found new → AnswersCall now change old invocation (λ reply. ok_if (is_done reply)) (replied_bytes result found) new }
{
    match made {
        Ok(timed) => ok_if(matches!(timed.kind, ReplyKind::Done(true))),
        Err(NoMemory) => Replied::NoMemory,
    }
}

/// Says 1 if the reply has no value, and else 0.
pub fn say_one_if_none(made: Outcome) -> Replied
    ensures { (now : ℕ) (change : TheChange) (old new : PassState) (invocation : Invocation) (found : List ℕ)
        → Made now change made old invocation found new → AnswersCall now change old invocation (λ reply. one_if (is_none (value_in reply))) (replied_bytes result found) new }
{
    match made {
        Ok(timed) => one_if(!has_value(timed.kind)),
        Err(NoMemory) => Replied::NoMemory,
    }
}

/// Says 1 if the key's value was the expected one, and else 0.
pub fn say_one_if_done(made: Outcome) -> Replied
    ensures { (now : ℕ) (change : TheChange) (old new : PassState) (invocation : Invocation) (found : List ℕ)
        → Made now change made old invocation found new → AnswersCall now change old invocation (λ reply. one_if (is_done reply)) (replied_bytes result found) new }
{
    match made {
        Ok(timed) => one_if(matches!(timed.kind, ReplyKind::Done(true))),
        Err(NoMemory) => Replied::NoMemory,
    }
}
