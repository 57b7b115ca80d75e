//! Options of commands, which come in any order.
ghost use Rattle.std.specs.Prelude.{◌≡◌, ◌≤◌, option_map, true, IfOk, IfSome, length};
ghost use Rattle.redis_commands.specs.declared.command.TheConstants.{NAME_BYTES};
ghost use Rattle.redis_commands.specs.Commands.{texts};
ghost use Rattle.redis_commands.specs.Words.{number};
ghost use Rattle.redis_commands.specs.Options.{flag, valued, spelled, is_of, same_unit, same_form, same_term, set_options, count_of, scan_option, scan_options, is_client_name, short_name, client_name, is_default, naming, each_hello_option, with_hello_option, hello_options};
ghost use Rattle.redis_commands.specs.Reading.{number_by, natural_by, text_by, term_by, option_by, set_view, set_by, goes_on, may_follow, added, scan_view, scan_by, scan_with, hello_option_by, hello_view, hello_by, hello_goes_on, naming_by};

use crate::command::{Condition, NAME_BYTES, TimeForm, TimeUnit};
use crate::fault::CommandFault;
use crate::name::{KeyName, is};
use crate::number::integer;

/// Reads a number of 64 bits.
pub(crate) fn number<'a>(text: &[u8]) -> Result<i64, CommandFault<'a>>
    ensures { number_by result ≡ number text.now }
{
    integer(text).ok_or(CommandFault::NotAnInteger)
}

/// How long an entry is to stay, as an option says it.
#[derive(Clone, Copy)]
pub(crate) enum Term<'a> {
    /// `KEEPTTL`
    Same,
    /// `PERSIST`
    Endless,
    /// `EX`, `PX`, `EXAT` and `PXAT`, with the text of a number.
    Ends {
        unit: TimeUnit,
        form: TimeForm,
        number: &'a [u8],
    },
}

/// An option of `SET` or `GETEX`.
#[derive(Clone, Copy)]
pub(crate) enum SetOption<'a> {
    /// `NX`, `XX` and `IFEQ`
    Only(Condition<'a>),
    /// `GET`
    OldValue,
    Stays(Term<'a>),
}

/// Returns the option that a word alone spells, or `None`.
fn flag<'a>(word: &[u8]) -> Option<SetOption<'a>>
    ensures { option_map option_by result ≡ flag word.now }
{
    if is("nx", word) {
        Some(SetOption::Only(Condition::IfAbsent))
    } else if is("xx", word) {
        Some(SetOption::Only(Condition::IfPresent))
    } else if is("get", word) {
        Some(SetOption::OldValue)
    } else if is("keepttl", word) {
        Some(SetOption::Stays(Term::Same))
    } else if is("persist", word) {
        Some(SetOption::Stays(Term::Endless))
    } else {
        None
    }
}

/// Returns the option that a word and its value spell, or `None`.
fn valued<'a>(word: &[u8], value: &'a [u8]) -> Option<SetOption<'a>>
    ensures { option_map option_by result ≡ valued word.now value.now }
{
    let (unit, form) = if is("ex", word) {
        (TimeUnit::Seconds, TimeForm::Left)
    } else if is("px", word) {
        (TimeUnit::Millis, TimeForm::Left)
    } else if is("exat", word) {
        (TimeUnit::Seconds, TimeForm::Until)
    } else if is("pxat", word) {
        (TimeUnit::Millis, TimeForm::Until)
    } else if is("ifeq", word) {
        return Some(SetOption::Only(Condition::IfEqual(value)));
    } else {
        return None;
    };
    Some(SetOption::Stays(Term::Ends {
        unit,
        form,
        number: value,
    }))
}

/// Returns the option that the first words spell, and how many words it has, or `None`.
fn first_option<'a>(words: &'a [&'a [u8]]) -> Option<(SetOption<'a>, usize)>
    requires { 1 ≤ length words.now }
    ensures value { goes_on result (texts words.now) ≡ spelled (texts words.now) }
    ensures within { IfSome result (λ first. (1 ≤ first.1) × (first.1 ≤ 2) × (first.1 ≤ length words.now)) }
{
    match words {
        [word, value, ..] => match valued(word, value) {
            Some(option) => Some((option, 2)),
            None => Some((flag(word)?, 1)),
        },
        [word] => Some((flag(word)?, 1)),
        [] => None,
    }
}

impl SetOption<'_> {
    /// Whether the command has this option.
    fn is_of(&self, name: KeyName) -> bool
        ensures { result ≡ is_of name (option_by self.now) }
    {
        match (name, self) {
            (KeyName::GetEx, SetOption::Stays(term)) => !matches!(term, Term::Same),
            (KeyName::GetEx, _) => false,
            (_, SetOption::Stays(Term::Endless)) => false,
            _ => true,
        }
    }
}

/// What the options of `SET` or `GETEX` come to.
#[derive(Clone, Copy)]
pub(crate) struct SetOptions<'a> {
    pub(crate) condition: Condition<'a>,
    pub(crate) wants_old: bool,
    pub(crate) term: Option<Term<'a>>,
}

/// Whether both units are the same.
fn same_unit(one: TimeUnit, other: TimeUnit) -> bool
    ensures { result ≡ same_unit one other }
{
    matches!(
        (one, other),
        (TimeUnit::Seconds, TimeUnit::Seconds) | (TimeUnit::Millis, TimeUnit::Millis)
    )
}

/// Whether both forms are the same.
fn same_form(one: TimeForm, other: TimeForm) -> bool
    ensures { result ≡ same_form one other }
{
    matches!(
        (one, other),
        (TimeForm::Left, TimeForm::Left) | (TimeForm::Until, TimeForm::Until)
    )
}

/// Whether one option says how long the entry stays as another does.
fn same_term(one: &Term<'_>, other: &Term<'_>) -> bool
    ensures { result ≡ same_term (term_by one.now) (term_by other.now) }
{
    match (one, other) {
        (Term::Same, Term::Same) | (Term::Endless, Term::Endless) => true,
        (
            Term::Ends { unit, form, .. },
            Term::Ends {
                unit: other_unit,
                form: other_form,
                ..
            },
        ) => same_unit(*unit, *other_unit) && same_form(*form, *other_form),
        _ => false,
    }
}

impl<'a> SetOptions<'a> {
    /// Whether the option goes together with those before it.
    fn allows(&self, option: &SetOption<'a>) -> bool
        ensures { result ≡ may_follow (set_view self.now) (option_by option.now) }
    {
        match option {
            SetOption::OldValue => true,
            SetOption::Stays(term) => match &self.term {
                None => true,
                Some(one) => same_term(one, term),
            },
            SetOption::Only(condition) => matches!(
                (&self.condition, condition),
                (Condition::Always, _)
                    | (Condition::IfAbsent, Condition::IfAbsent)
                    | (Condition::IfPresent, Condition::IfPresent)
            ),
        }
    }

    /// Adds an option. Returns `Syntax` if it goes against one before it.
    fn with(self, option: SetOption<'a>) -> Result<SetOptions<'a>, CommandFault<'a>>
        ensures { set_by result ≡ added (set_view self.entry) (option_by option.entry) }
    {
        if !self.allows(&option) {
            return Err(CommandFault::Syntax);
        }
        Ok(match option {
            SetOption::Only(condition) => SetOptions { condition, ..self },
            SetOption::OldValue => SetOptions {
                wants_old: true,
                ..self
            },
            SetOption::Stays(term) => SetOptions {
                term: Some(term),
                ..self
            },
        })
    }

    /// Reads the options of this command.
    pub(crate) fn read(
        name: KeyName,
        words: &'a [&'a [u8]],
    ) -> Result<SetOptions<'a>, CommandFault<'a>>
        ensures { set_by result ≡ set_options name (texts words.now) }
    {
        let mut options = SetOptions {
            condition: Condition::Always,
            wants_old: false,
            term: None,
        };
        let mut left = words;
        while !left.is_empty() {
            let Some((option, count)) = first_option(left) else {
                return Err(CommandFault::Syntax);
            };
            if !option.is_of(name) {
                return Err(CommandFault::Syntax);
            }
            options = options.with(option)?;
            left = &left[count..];
        }
        Ok(options)
    }
}

/// What the options of `SCAN` come to.
#[derive(Clone, Copy)]
pub(crate) struct ScanOptions<'a> {
    pub(crate) pattern: Option<&'a [u8]>,
    pub(crate) count: u64,
    pub(crate) is_string: bool,
}

/// Returns the number of keys that a number asks for, which is at least 1.
fn count_of<'a>(n: i64) -> Result<u64, CommandFault<'a>>
    ensures { natural_by result ≡ count_of n }
{
    match u64::try_from(n) {
        Ok(count) if count > 0 => Ok(count),
        _ => Err(CommandFault::Syntax),
    }
}

impl<'a> ScanOptions<'a> {
    /// Adds an option and its value.
    fn with_option(
        self,
        word: &'a [u8],
        value: &'a [u8],
    ) -> Result<ScanOptions<'a>, CommandFault<'a>>
        ensures { scan_by result ≡ scan_with (scan_view self.entry) (scan_option word.now value.now) }
    {
        if is("match", word) {
            Ok(ScanOptions {
                pattern: Some(value),
                ..self
            })
        } else if is("count", word) {
            let count = count_of(number(value)?)?;
            Ok(ScanOptions { count, ..self })
        } else if is("type", word) {
            let is_string = is("string", value);
            Ok(ScanOptions { is_string, ..self })
        } else {
            Err(CommandFault::Syntax)
        }
    }

    /// Reads the options.
    pub(crate) fn read(words: &'a [&'a [u8]]) -> Result<ScanOptions<'a>, CommandFault<'a>>
        ensures { scan_by result ≡ scan_options (texts words.now) }
    {
        let mut options = ScanOptions {
            pattern: None,
            count: 10,
            is_string: true,
        };
        let mut left = words;
        while let [option, value, more @ ..] = left {
            options = options.with_option(option, value)?;
            left = more;
        }
        if left.is_empty() {
            Ok(options)
        } else {
            Err(CommandFault::Syntax)
        }
    }
}

/// Whether each byte of a client's name is from `!` to `~`.
fn is_client_name(name: &[u8]) -> bool
    ensures { result ≡ is_client_name name.now }
{
    for b in name {
        if !b.is_ascii_graphic() {
            return false;
        }
    }
    true
}

/// Returns the client's name, if it is within its limit.
pub(crate) fn short_name<'a>(name: &'a [u8]) -> Result<&'a [u8], CommandFault<'a>>
    ensures value { text_by result ≡ short_name name.now }
    ensures short { IfOk result (λ given. length given.now ≤ NAME_BYTES) }
{
    if name.len() > NAME_BYTES {
        return Err(CommandFault::LongClientName);
    }
    Ok(name)
}

/// Returns the client's name, if it may have this one.
pub(crate) fn client_name<'a>(name: &'a [u8]) -> Result<&'a [u8], CommandFault<'a>>
    ensures value { text_by result ≡ client_name name.now }
    ensures short { IfOk result (λ given. length given.now ≤ NAME_BYTES) }
{
    if !is_client_name(name) {
        return Err(CommandFault::BadClientName);
    }
    short_name(name)
}

/// Whether this is the user that each client is.
pub(crate) fn is_default(user: &[u8]) -> bool
    ensures { result ≡ is_default user.now }
{
    user == b"default".as_slice()
}

/// An option of `HELLO`.
#[derive(Clone, Copy)]
pub(crate) enum HelloOption<'a> {
    /// `SETNAME`
    Named(&'a [u8]),
    /// `AUTH`
    User { user: &'a [u8], password: &'a [u8] },
}

/// Returns the option that gives the client's name.
fn naming<'a>(word: &'a [u8], value: &'a [u8]) -> Result<HelloOption<'a>, CommandFault<'a>>
    ensures { naming_by result ≡ naming word.now value.now }
{
    if !is("setname", word) {
        return Err(CommandFault::HelloOption(word));
    }
    if !is_client_name(value) {
        return Err(CommandFault::BadClientName);
    }
    Ok(HelloOption::Named(value))
}

/// Returns the option that the first words spell, and how many words it has.
fn first_hello_option<'a>(
    words: &'a [&'a [u8]],
) -> Result<(HelloOption<'a>, usize), CommandFault<'a>>
    requires { 1 ≤ length words.now }
    ensures value { hello_goes_on result (texts words.now) ≡ each_hello_option (texts words.now) }
    ensures within { IfOk result (λ first. (1 ≤ first.1) × (first.1 ≤ 3) × (first.1 ≤ length words.now)) }
{
    match words {
        [word, value, password, ..] => {
            if is("auth", word) {
                let user = HelloOption::User {
                    user: value,
                    password,
                };
                Ok((user, 3))
            } else {
                Ok((naming(word, value)?, 2))
            }
        }
        [word, value] => Ok((naming(word, value)?, 2)),
        [word] => Err(CommandFault::HelloOption(word)),
        [] => Err(CommandFault::Syntax),
    }
}

/// What the options of `HELLO` come to.
#[derive(Clone, Copy)]
pub(crate) struct HelloOptions<'a> {
    pub(crate) name: Option<&'a [u8]>,
    /// The password that is given last.
    pub(crate) password: Option<&'a [u8]>,
    /// Another user than `default` is named last.
    pub(crate) is_stranger: bool,
}

impl<'a> HelloOptions<'a> {
    /// Adds an option.
    fn with(self, option: HelloOption<'a>) -> HelloOptions<'a>
        ensures { hello_view result ≡ with_hello_option (hello_view self.entry) (hello_option_by option.entry) }
    {
        match option {
            HelloOption::Named(name) => HelloOptions {
                name: Some(name),
                ..self
            },
            HelloOption::User { user, password } => HelloOptions {
                password: Some(password),
                is_stranger: !is_default(user),
                ..self
            },
        }
    }

    /// Reads the options.
    pub(crate) fn read(words: &'a [&'a [u8]]) -> Result<HelloOptions<'a>, CommandFault<'a>>
        ensures { hello_by result ≡ hello_options (texts words.now) }
    {
        let mut options = HelloOptions {
            name: None,
            password: None,
            is_stranger: false,
        };
        let mut left = words;
        while !left.is_empty() {
            let (option, count) = first_hello_option(left)?;
            options = options.with(option);
            left = &left[count..];
        }
        Ok(options)
    }
}
