//! Deadlines, as numbers of commands tell them.
ghost use Rattle.std.specs.Prelude.{◌≡◌, true};
ghost use Rattle.redis_commands.specs.declared.name.Name.TheVariants.{Key};
ghost use Rattle.redis_commands.specs.Commands.{text, texts};
ghost use Rattle.redis_commands.specs.Numbers.{fits_64};
ghost use Rattle.redis_commands.specs.Deadlines.{millis, counted_from, from_0, deadline, deadline_above_0, is_expire_option, unknown_option, has, rule_by, rule_of};
ghost use Rattle.redis_commands.specs.Options.{lifetime};
ghost use Rattle.redis_commands.specs.Reading.{natural_by, same_by, term_by};

use crate::command::{ExpireRule, Lifetime, TimeForm, TimeUnit};
use crate::fault::CommandFault;
use crate::name::{KeyName, Name, is};
use crate::options::{Term, number};

/// Returns how many milliseconds a number of a unit has.
fn millis(unit: TimeUnit, n: i64) -> i128
    ensures { result ≡ millis unit n }
{
    match unit {
        TimeUnit::Seconds => i128::from(n) * 1_000,
        TimeUnit::Millis => i128::from(n),
    }
}

/// Returns the time from which a number is counted.
fn counted_from(form: TimeForm, now: u64) -> i128
    ensures { result ≡ counted_from form now }
{
    match form {
        TimeForm::Left => i128::from(now),
        TimeForm::Until => 0,
    }
}

/// Whether a number has 64 bits.
fn fits_64(n: i128) -> bool
    ensures { result ≡ fits_64 n }
{
    i64::try_from(n).is_ok()
}

/// Returns the time, and 0 for one before the epoch.
fn from_0(at: i128) -> u64
    requires { fits_64 at ≡ true }
    ensures { result ≡ from_0 at }
{
    if at < 0 { 0 } else { at as u64 }
}

/// Returns the deadline that a number tells at the time `now`, in milliseconds since the epoch. One before the epoch is 0.
/// Returns `BadExpire` if the number in milliseconds or the deadline doesn't fit into 64 bits.
pub(crate) fn deadline<'a>(
    name: KeyName,
    now: u64,
    unit: TimeUnit,
    form: TimeForm,
    n: i64,
) -> Result<u64, CommandFault<'a>>
    ensures { natural_by result ≡ deadline (Key name) now unit form n }
{
    let by = millis(unit, n);
    let at = counted_from(form, now) + by;
    if !fits_64(by) || !fits_64(at) {
        return Err(CommandFault::BadExpire(Name::Key(name)));
    }
    Ok(from_0(at))
}

/// Returns the same, of a number that has to be above 0.
pub(crate) fn deadline_above_0<'a>(
    name: KeyName,
    now: u64,
    unit: TimeUnit,
    form: TimeForm,
    n: i64,
) -> Result<u64, CommandFault<'a>>
    ensures { natural_by result ≡ deadline_above_0 (Key name) now unit form n }
{
    if n <= 0 {
        return Err(CommandFault::BadExpire(Name::Key(name)));
    }
    deadline(name, now, unit, form, n)
}

/// Returns how long an entry stays, by an option of this command.
pub(crate) fn lifetime<'a>(
    name: KeyName,
    now: u64,
    term: Term<'a>,
) -> Result<Lifetime, CommandFault<'a>>
    ensures { same_by result ≡ lifetime name now (term_by term.entry) }
{
    match term {
        Term::Same => Ok(Lifetime::Kept),
        Term::Endless => Ok(Lifetime::Forever),
        Term::Ends {
            unit,
            form,
            number: text,
        } => {
            let n = number(text)?;
            let at = deadline_above_0(name, now, unit, form, n)?;
            Ok(Lifetime::Until(at))
        }
    }
}

/// Whether a word is an option of `EXPIRE`.
fn is_expire_option(word: &[u8]) -> bool
    ensures { result ≡ is_expire_option word.now }
{
    is("nx", word) || is("xx", word) || is("gt", word) || is("lt", word)
}

/// Returns the first word that is no option of `EXPIRE`, or `None`.
fn unknown_option<'a>(words: &'a [&'a [u8]]) -> Option<&'a [u8]>
    ensures { text result ≡ unknown_option (texts words.now) }
{
    for word in words {
        if !is_expire_option(word) {
            return Some(word);
        }
    }
    None
}

/// Whether one of the words is this one, in any case.
fn has(name: &str, words: &[&[u8]]) -> bool
    ensures { result ≡ has name.now (texts words.now) }
{
    for word in words {
        if is(name, word) {
            return true;
        }
    }
    false
}

/// Returns when a deadline is set, by which options are there.
fn rule_by<'a>(nx: bool, xx: bool, gt: bool, lt: bool) -> Result<ExpireRule, CommandFault<'a>>
    ensures { same_by result ≡ rule_by nx xx gt lt }
{
    match (nx, xx, gt, lt) {
        (true, false, false, false) => Ok(ExpireRule::IfNone),
        (true, _, _, _) => Err(CommandFault::NxWithOthers),
        (_, _, true, true) => Err(CommandFault::GtWithLt),
        (_, _, true, _) => Ok(ExpireRule::IfLater),
        (_, true, _, true) => Ok(ExpireRule::IfSomeAndSooner),
        (_, _, _, true) => Ok(ExpireRule::IfSooner),
        (_, true, _, _) => Ok(ExpireRule::IfSome),
        _ => Ok(ExpireRule::Always),
    }
}

/// Returns when a deadline is set, by the words after it.
pub(crate) fn rule_of<'a>(words: &'a [&'a [u8]]) -> Result<ExpireRule, CommandFault<'a>>
    ensures { same_by result ≡ rule_of (texts words.now) }
{
    if let Some(word) = unknown_option(words) {
        return Err(CommandFault::ExpireOption(word));
    }
    rule_by(
        has("nx", words),
        has("xx", words),
        has("gt", words),
        has("lt", words),
    )
}
