//! The commands of keys.
ghost use Rattle.std.specs.Prelude.{◌≡◌, ◌<◌, ◌≤◌, ◌⊎◌, true, IfOk, length, nat_lt};
ghost use Rattle.redis_commands.specs.declared.name.KeyName.TheVariants.{Set, GetEx, GetRange, SetRange, IncrBy, DecrBy};
ghost use Rattle.redis_commands.specs.Commands.Act.{SetRange as ActSetRange};
ghost use Rattle.redis_commands.specs.Commands.Fault.{OffsetOutOfRange};
ghost use Rattle.redis_commands.specs.Names.{key_arity, is_allowed, IsOfDeadlines};
ghost use Rattle.redis_commands.specs.Commands.{answer_by, act_by, asked_by, texts};
ghost use Rattle.redis_commands.specs.Reading.{number_by, natural_by, err_by};
ghost use Rattle.redis_commands.specs.Words.{word, number_from_0};
ghost use Rattle.redis_commands.specs.Table.{longest, on_key, turned, set_for, expire_by, expire, asked_of_key, has_long_key, on_keys, long_word, set_each, asked_of_keys};
ghost use Rattle.redis_commands.specs.Limits.{IsWithinLimits};

use crate::command::{
    Command, Condition, ExpireRule, KeyAct, KeysAct, Lifetime, TimeForm, TimeUnit,
};
use crate::deadlines::{deadline, deadline_above_0, lifetime, rule_of};
use crate::fault::CommandFault;
use crate::name::{KeyName, KeysName, Name};
use crate::options::{SetOptions, Term, number};
use bpf_model::limits::{KEY_BYTES, VALUE_BYTES};

/// A command, or why words are none.
pub(crate) type Answer<'a> = Result<Command<'a>, CommandFault<'a>>;

/// Returns the argument at this place.
pub(crate) fn word<'a>(args: &'a [&'a [u8]], i: usize) -> &'a [u8]
    requires { i < length args.now }
    ensures { result.now ≡ word i (texts args.now) }
{
    args[i]
}

/// Whether the act names or makes a value that is too long.
fn is_long(act: &KeyAct<'_>) -> bool
    ensures { result ≡ nat_lt VALUE_BYTES (longest (act_by act.now)) }
{
    match act {
        KeyAct::Set {
            value,
            condition: Condition::IfEqual(expected),
            ..
        } => value.len() > VALUE_BYTES || expected.len() > VALUE_BYTES,
        KeyAct::Set { value, .. }
        | KeyAct::SetIfAbsent { value }
        | KeyAct::GetAndSet { value }
        | KeyAct::Append { value }
        | KeyAct::DeleteIfEqual { value } => value.len() > VALUE_BYTES,
        KeyAct::SetRange { offset, value } => is_long_range(*offset, value),
        _ => false,
    }
}

/// Whether a value at this offset passes the limit. An empty one makes nothing.
fn is_long_range(offset: u64, value: &[u8]) -> bool
    ensures { result ≡ nat_lt VALUE_BYTES (longest (ActSetRange offset value.now)) }
{
    if value.is_empty() {
        return false;
    }
    if value.len() > VALUE_BYTES {
        return true;
    }
    offset > (VALUE_BYTES - value.len()) as u64
}

/// The act on the key, if both are within the limits.
fn on_key<'a>(key: &'a [u8], act: KeyAct<'a>) -> Answer<'a>
    ensures asked { answer_by result ≡ on_key key.now (act_by act.entry) }
    ensures limits { IfOk result (λ c. IsWithinLimits (asked_by c)) }
{
    if key.len() > KEY_BYTES {
        return Err(CommandFault::LongKey);
    }
    if is_long(&act) {
        return Err(CommandFault::LongValue);
    }
    Ok(Command::OnKey { key, act })
}

/// Turns a number round that is to be taken away.
fn turned<'a>(n: i64) -> Result<i64, CommandFault<'a>>
    ensures { number_by result ≡ turned n }
{
    if n == i64::MIN {
        return Err(CommandFault::DecrementOverflow);
    }
    Ok(-n)
}

/// Returns what the arguments of `SET` ask for.
fn set<'a>(now: u64, args: &'a [&'a [u8]]) -> Answer<'a>
    requires { 2 ≤ length args.now }
    ensures asked { answer_by result ≡ asked_of_key now Set (texts args.now) }
    ensures limits { IfOk result (λ c. IsWithinLimits (asked_by c)) }
{
    let options = SetOptions::read(KeyName::Set, &args[2..])?;
    let lifetime = lifetime(KeyName::Set, now, options.term.unwrap_or(Term::Endless))?;
    let act = KeyAct::Set {
        value: word(args, 1),
        condition: options.condition,
        wants_old: options.wants_old,
        lifetime,
    };
    on_key(word(args, 0), act)
}

/// Returns what the arguments of `SETEX` or `PSETEX` ask for.
fn set_for<'a>(name: KeyName, now: u64, unit: TimeUnit, args: &'a [&'a [u8]]) -> Answer<'a>
    requires { 3 ≤ length args.now }
    ensures asked { answer_by result ≡ set_for name now unit (texts args.now) }
    ensures limits { IfOk result (λ c. IsWithinLimits (asked_by c)) }
{
    let n = number(word(args, 1))?;
    let at = deadline_above_0(name, now, unit, TimeForm::Left, n)?;
    let act = KeyAct::Set {
        value: word(args, 2),
        condition: Condition::Always,
        wants_old: false,
        lifetime: Lifetime::Until(at),
    };
    on_key(word(args, 0), act)
}

/// Returns what the arguments of `GETEX` ask for.
fn get_ex<'a>(now: u64, args: &'a [&'a [u8]]) -> Answer<'a>
    requires { 1 ≤ length args.now }
    ensures asked { answer_by result ≡ asked_of_key now GetEx (texts args.now) }
    ensures limits { IfOk result (λ c. IsWithinLimits (asked_by c)) }
{
    let options = SetOptions::read(KeyName::GetEx, &args[1..])?;
    let lifetime = lifetime(KeyName::GetEx, now, options.term.unwrap_or(Term::Same))?;
    on_key(word(args, 0), KeyAct::GetAndExpire { lifetime })
}

/// Returns what the arguments of `EXPIRE` or its like ask for, if this rule says when the deadline is set.
fn expire_by<'a>(
    name: KeyName,
    now: u64,
    unit: TimeUnit,
    form: TimeForm,
    rule: ExpireRule,
    args: &'a [&'a [u8]],
) -> Answer<'a>
    requires { 2 ≤ length args.now }
    ensures asked { answer_by result ≡ expire_by name now unit form rule (texts args.now) }
    ensures limits { IfOk result (λ c. IsWithinLimits (asked_by c)) }
{
    let n = number(word(args, 1))?;
    let at = deadline(name, now, unit, form, n)?;
    on_key(word(args, 0), KeyAct::Expire { at, rule })
}

/// Returns what the arguments of `EXPIRE` or its like ask for.
fn expire<'a>(
    name: KeyName,
    now: u64,
    unit: TimeUnit,
    form: TimeForm,
    args: &'a [&'a [u8]],
) -> Answer<'a>
    requires { 2 ≤ length args.now }
    ensures asked { answer_by result ≡ expire name now unit form (texts args.now) }
    ensures limits { IfOk result (λ c. IsWithinLimits (asked_by c)) }
{
    expire_by(name, now, unit, form, rule_of(&args[2..])?, args)
}

/// Returns what the arguments of `GETRANGE` ask for.
fn get_range<'a>(args: &'a [&'a [u8]]) -> Answer<'a>
    requires { 3 ≤ length args.now }
    ensures asked { answer_by result ≡ asked_of_key 0 GetRange (texts args.now) }
    ensures limits { IfOk result (λ c. IsWithinLimits (asked_by c)) }
{
    let start = number(word(args, 1))?;
    let end = number(word(args, 2))?;
    on_key(word(args, 0), KeyAct::GetRange { start, end })
}

/// Returns the number, or `OffsetOutOfRange` if it is below 0.
fn offset_of<'a>(n: i64) -> Result<u64, CommandFault<'a>>
    ensures { natural_by result ≡ number_from_0 OffsetOutOfRange n }
{
    match u64::try_from(n) {
        Ok(offset) => Ok(offset),
        Err(_) => Err(CommandFault::OffsetOutOfRange),
    }
}

/// Returns what the arguments of `SETRANGE` ask for.
fn set_range<'a>(args: &'a [&'a [u8]]) -> Answer<'a>
    requires { 3 ≤ length args.now }
    ensures asked { answer_by result ≡ asked_of_key 0 SetRange (texts args.now) }
    ensures limits { IfOk result (λ c. IsWithinLimits (asked_by c)) }
{
    let offset = offset_of(number(word(args, 1))?)?;
    let value = word(args, 2);
    on_key(word(args, 0), KeyAct::SetRange { offset, value })
}

/// Returns what the arguments of a command of one key and a number ask for.
fn add<'a>(name: KeyName, args: &'a [&'a [u8]]) -> Answer<'a>
    requires name { (name ≡ IncrBy) ⊎ (name ≡ DecrBy) }
    requires count { 2 ≤ length args.now }
    ensures asked { answer_by result ≡ asked_of_key 0 name (texts args.now) }
    ensures limits { IfOk result (λ c. IsWithinLimits (asked_by c)) }
{
    let n = number(word(args, 1))?;
    let by = match name {
        KeyName::DecrBy => turned(n)?,
        _ => n,
    };
    on_key(word(args, 0), KeyAct::Add { by })
}

/// Returns what the arguments of a command of a deadline ask for.
fn deadline_command<'a>(name: KeyName, now: u64, args: &'a [&'a [u8]]) -> Answer<'a>
    requires count { is_allowed (key_arity name) (length args.now) ≡ true }
    requires name { IsOfDeadlines name }
    ensures asked { answer_by result ≡ asked_of_key now name (texts args.now) }
    ensures limits { IfOk result (λ c. IsWithinLimits (asked_by c)) }
{
    let (unit, form) = match name {
        KeyName::SetEx => return set_for(name, now, TimeUnit::Seconds, args),
        KeyName::PsetEx => return set_for(name, now, TimeUnit::Millis, args),
        KeyName::Expire => return expire(name, now, TimeUnit::Seconds, TimeForm::Left, args),
        KeyName::Pexpire => return expire(name, now, TimeUnit::Millis, TimeForm::Left, args),
        KeyName::ExpireAt => return expire(name, now, TimeUnit::Seconds, TimeForm::Until, args),
        KeyName::PexpireAt => return expire(name, now, TimeUnit::Millis, TimeForm::Until, args),
        KeyName::Ttl => (TimeUnit::Seconds, TimeForm::Left),
        KeyName::Pttl => (TimeUnit::Millis, TimeForm::Left),
        KeyName::ExpireTime => (TimeUnit::Seconds, TimeForm::Until),
        _ => (TimeUnit::Millis, TimeForm::Until),
    };
    on_key(word(args, 0), KeyAct::TimeLeft { unit, form })
}

/// Returns what the arguments of a command of one key ask for, at the time `now`.
pub(crate) fn key_command<'a>(name: KeyName, now: u64, args: &'a [&'a [u8]]) -> Answer<'a>
    requires { is_allowed (key_arity name) (length args.now) ≡ true }
    ensures asked { answer_by result ≡ asked_of_key now name (texts args.now) }
    ensures limits { IfOk result (λ c. IsWithinLimits (asked_by c)) }
{
    match name {
        KeyName::Get => on_key(word(args, 0), KeyAct::Get),
        KeyName::Set => set(now, args),
        KeyName::Incr => on_key(word(args, 0), KeyAct::Add { by: 1 }),
        KeyName::Decr => on_key(word(args, 0), KeyAct::Add { by: -1 }),
        KeyName::IncrBy | KeyName::DecrBy => add(name, args),
        KeyName::GetDel => on_key(word(args, 0), KeyAct::GetAndDelete),
        KeyName::GetEx => get_ex(now, args),
        KeyName::Persist => on_key(word(args, 0), KeyAct::Persist),
        KeyName::StrLen => on_key(word(args, 0), KeyAct::Length),
        KeyName::Type => on_key(word(args, 0), KeyAct::TypeName),
        KeyName::GetRange | KeyName::Substr => get_range(args),
        KeyName::SetRange => set_range(args),
        KeyName::SetNx | KeyName::GetSet | KeyName::Append | KeyName::DelIfEq => {
            let (key, value) = (word(args, 0), word(args, 1));
            match name {
                KeyName::SetNx => on_key(key, KeyAct::SetIfAbsent { value }),
                KeyName::GetSet => on_key(key, KeyAct::GetAndSet { value }),
                KeyName::Append => on_key(key, KeyAct::Append { value }),
                _ => on_key(key, KeyAct::DeleteIfEqual { value }),
            }
        }
        _ => deadline_command(name, now, args),
    }
}

/// Whether one of the keys is too long.
fn has_long_key(keys: &[&[u8]]) -> bool
    ensures { result ≡ has_long_key (texts keys.now) }
{
    for key in keys {
        if key.len() > KEY_BYTES {
            return true;
        }
    }
    false
}

/// The act on the keys, if they are within the limit.
#[tactic(auto, using(crate::proofs::LimitLemmas::keys_within))]
fn on_keys<'a>(keys: &'a [&'a [u8]], act: KeysAct) -> Answer<'a>
    ensures asked { answer_by result ≡ on_keys (texts keys.now) act }
    ensures limits { IfOk result (λ c. IsWithinLimits (asked_by c)) }
{
    if has_long_key(keys) {
        return Err(CommandFault::LongKey);
    }
    Ok(Command::OnKeys { keys, act })
}

/// Looks at keys and values that come by turns. Returns `LongKey` or `LongValue` for the first one that is too long.
#[tactic(auto, using(crate::proofs::OptionLemmas::long_word_short))]
fn check_pairs<'a>(words: &[&[u8]]) -> Result<(), CommandFault<'a>>
    ensures { err_by result ≡ long_word (texts words.now) }
{
    let mut left = words;
    while let [key, value, more @ ..] = left {
        if key.len() > KEY_BYTES {
            return Err(CommandFault::LongKey);
        }
        if value.len() > VALUE_BYTES {
            return Err(CommandFault::LongValue);
        }
        left = more;
    }
    Ok(())
}

/// Returns what the arguments of `MSET` ask for.
#[tactic(auto, using(crate::proofs::LimitLemmas::pairs_within))]
fn set_each<'a>(words: &'a [&'a [u8]]) -> Answer<'a>
    ensures asked { answer_by result ≡ set_each (texts words.now) }
    ensures limits { IfOk result (λ c. IsWithinLimits (asked_by c)) }
{
    if words.len() % 2 == 1 {
        return Err(CommandFault::WrongCount(Name::Keys(KeysName::Mset)));
    }
    check_pairs(words)?;
    Ok(Command::SetEach { words })
}

/// Returns what the arguments of a command of several keys ask for.
pub(crate) fn keys_command<'a>(name: KeysName, args: &'a [&'a [u8]]) -> Answer<'a>
    ensures asked { answer_by result ≡ asked_of_keys name (texts args.now) }
    ensures limits { IfOk result (λ c. IsWithinLimits (asked_by c)) }
{
    match name {
        KeysName::Mget => on_keys(args, KeysAct::GetEach),
        KeysName::Mset => set_each(args),
        KeysName::Del | KeysName::Unlink => on_keys(args, KeysAct::Delete),
        KeysName::Exists | KeysName::Touch => on_keys(args, KeysAct::CountPresent),
    }
}
