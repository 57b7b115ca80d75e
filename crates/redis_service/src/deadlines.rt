//! Commands about the deadline of a key.
ghost use Rattle.std.specs.Prelude.{◌≡◌, ℕ, List};
ghost use Rattle.timed_bins.specs.declared.timing.DeadlineChange.{DeadlineChange as TheChange};
ghost use Rattle.atomic_methods.specs.Invocations.{Invocation};
ghost use Rattle.bin_stripes.specs.Passes.{PassState};
ghost use Rattle.redis_commands.specs.Commands.Act.{GetAndExpire, Expire, Persist, TimeLeft};
ghost use Rattle.redis_service.specs.Answers.{AnswersKey};
ghost use Rattle.redis_service.specs.Calls.{Made, AnswersTimed, value_in};
ghost use Rattle.redis_service.specs.Deadlines as deadlines;
ghost use Rattle.redis_service.specs.Deadlines.{rule_by, expire_line, persist_line, time_line};
ghost use Rattle.redis_service.specs.Replied.{replied_bytes};

use crate::calls::{MapAt, Outcome, has_value, make, noted};
use crate::reply::Replied;
use crate::room::Room;
use crate::telling::{one_if, say_value};
use atomic_methods::Call;
use bin_stripes::Pass;
use bpf_model::NoMemory;
use redis_commands::{ExpireRule, Lifetime, TimeForm, TimeUnit};
use std::sync::Wait;
use timed_bins::{DeadlineChange, SetRule};

/// Returns what becomes of the deadline of an entry that lives so long from now on.
pub fn lives(lifetime: Lifetime) -> DeadlineChange
    ensures { result ≡ deadlines.lives lifetime }
{
    match lifetime {
        Lifetime::Forever => DeadlineChange::Clear,
        Lifetime::Kept => DeadlineChange::Keep,
        Lifetime::Until(at) => DeadlineChange::Set {
            at,
            rule: SetRule::Always,
        },
    }
}

/// Returns the rule that `EXPIRE` was given.
fn rule_of(rule: ExpireRule) -> SetRule
    ensures { result ≡ rule_by rule }
{
    match rule {
        ExpireRule::Always => SetRule::Always,
        ExpireRule::IfNone => SetRule::IfNone,
        ExpireRule::IfSome => SetRule::IfSome,
        ExpireRule::IfLater => SetRule::IfLater,
        ExpireRule::IfSooner => SetRule::IfSooner,
        ExpireRule::IfSomeAndSooner => SetRule::IfSomeAndSooner,
    }
}

/// Says 1 if there was a value and the rule allowed the deadline, else 0.
fn say_expired(made: Outcome, rule: SetRule, at: u64) -> Replied
    ensures { (now : ℕ) (change : TheChange) (old new : PassState) (invocation : Invocation) (found : List ℕ)
        → Made now change made old invocation found new → AnswersTimed now change old invocation
        (λ reply before. expire_line rule at (value_in reply) before) (replied_bytes result found) new }
{
    match made {
        Ok(timed) => one_if(has_value(timed.kind) && rule.allows(timed.before, at)),
        Err(NoMemory) => Replied::NoMemory,
    }
}

/// Says 1 if there was a value with a deadline, else 0.
fn say_persisted(made: Outcome) -> Replied
    ensures { (now : ℕ) (change : TheChange) (old new : PassState) (invocation : Invocation) (found : List ℕ)
        → Made now change made old invocation found new → AnswersTimed now change old invocation
        (λ reply before. persist_line (value_in reply) before) (replied_bytes result found) new }
{
    match made {
        Ok(timed) => one_if(has_value(timed.kind) && timed.before.is_some()),
        Err(NoMemory) => Replied::NoMemory,
    }
}

/// Returns the time in this unit. Seconds are rounded.
fn in_unit(unit: TimeUnit, ms: u64) -> u64
    ensures { result ≡ deadlines.in_unit unit ms }
{
    match unit {
        TimeUnit::Millis => ms,
        TimeUnit::Seconds => ms / 1000 + (ms % 1000 + 500) / 1000,
    }
}

/// Returns the time that is left at `now`, or the deadline.
fn in_form(form: TimeForm, now: u64, at: u64) -> u64
    ensures { result ≡ deadlines.in_form form now at }
{
    match form {
        TimeForm::Left => at.saturating_sub(now),
        TimeForm::Until => at,
    }
}

/// Says the time that is left at `now`, or the deadline; -1 if there is none, and -2 if there is no value.
fn say_time(made: Outcome, now: u64, unit: TimeUnit, form: TimeForm) -> Replied
    ensures { (change : TheChange) (old new : PassState) (invocation : Invocation) (found : List ℕ)
        → Made now change made old invocation found new → AnswersTimed now change old invocation
        (λ reply before. time_line now unit form (value_in reply) before) (replied_bytes result found) new }
{
    let timed = match made {
        Ok(timed) => timed,
        Err(NoMemory) => return Replied::NoMemory,
    };
    if !has_value(timed.kind) {
        return Replied::Integer(-2);
    }
    match timed.before {
        Some(at) => Replied::Count(in_unit(unit, in_form(form, now, at))),
        None => Replied::Integer(-1),
    }
}

/// Gets the value of the room's key, which lives so long from now on.
pub fn get_and_expire<H: Wait>(
    rt: &H,
    at: &MapAt<'_>,
    pass: &mut Pass,
    room: &mut Room,
    lifetime: Lifetime,
) -> Replied
    requires map { pass.old.map ≡ at.now.map.now }
    ensures same { pass.new.map ≡ at.now.map.now }
    ensures passes { pass.new.view.passes ≡ pass.old.view.passes }
    ensures numbers { pass.new.view.numbers ≡ pass.old.view.numbers }
    ensures answers { AnswersKey at.now.time pass.old room.old.key (GetAndExpire lifetime) (replied_bytes result room.new.found) pass.new }
{
    let Room {
        key,
        found,
        sweeper,
        ..
    } = room;
    let made = make(rt, at, pass, &Call::Get { key }, lives(lifetime), found);
    say_value(noted(made, sweeper))
}

/// Sets the deadline of the room's key if the rule allows it, and says 1 if it did, else 0.
pub fn expire<H: Wait>(
    rt: &H,
    at: &MapAt<'_>,
    pass: &mut Pass,
    room: &mut Room,
    until: u64,
    rule: ExpireRule,
) -> Replied
    requires map { pass.old.map ≡ at.now.map.now }
    ensures same { pass.new.map ≡ at.now.map.now }
    ensures passes { pass.new.view.passes ≡ pass.old.view.passes }
    ensures numbers { pass.new.view.numbers ≡ pass.old.view.numbers }
    ensures answers { AnswersKey at.now.time pass.old room.old.key (Expire until rule) (replied_bytes result room.new.found) pass.new }
{
    let Room {
        key,
        found,
        sweeper,
        ..
    } = room;
    let rule = rule_of(rule);
    let change = DeadlineChange::Set { at: until, rule };
    let made = make(rt, at, pass, &Call::Get { key }, change, found);
    say_expired(noted(made, sweeper), rule, until)
}

/// Takes the deadline of the room's key away, and says 1 if it had one, else 0.
pub fn persist<H: Wait>(rt: &H, at: &MapAt<'_>, pass: &mut Pass, room: &mut Room) -> Replied
    requires map { pass.old.map ≡ at.now.map.now }
    ensures same { pass.new.map ≡ at.now.map.now }
    ensures passes { pass.new.view.passes ≡ pass.old.view.passes }
    ensures numbers { pass.new.view.numbers ≡ pass.old.view.numbers }
    ensures answers { AnswersKey at.now.time pass.old room.old.key Persist (replied_bytes result room.new.found) pass.new }
{
    let Room { key, found, .. } = room;
    let made = make(
        rt,
        at,
        pass,
        &Call::Get { key },
        DeadlineChange::Clear,
        found,
    );
    say_persisted(made)
}

/// Says how long the room's key has, or until when.
pub fn time_left<H: Wait>(
    rt: &H,
    at: &MapAt<'_>,
    pass: &mut Pass,
    room: &mut Room,
    unit: TimeUnit,
    form: TimeForm,
) -> Replied
    requires map { pass.old.map ≡ at.now.map.now }
    ensures same { pass.new.map ≡ at.now.map.now }
    ensures passes { pass.new.view.passes ≡ pass.old.view.passes }
    ensures numbers { pass.new.view.numbers ≡ pass.old.view.numbers }
    ensures answers { AnswersKey at.now.time pass.old room.old.key (TimeLeft unit form) (replied_bytes result room.new.found) pass.new }
{
    let Room { key, found, .. } = room;
    let made = make(
        rt,
        at,
        pass,
        &Call::Get { key },
        DeadlineChange::Keep,
        found,
    );
    say_time(made, at.time, unit, form)
}
