//! What is asked of the server's clients, and of requests that took long.
ghost use Rattle.std.specs.Prelude.{◌≡◌};
ghost use Rattle.redis_commands.specs.Commands.{texts, clients_by, filter_view};
ghost use Rattle.redis_commands.specs.Clients.{client_type, above_0, client_number, spares, of_user, filtered, no_filter, filter_of, kill_by, kill, are_numbers, named, listed, of_type, list, slow_count, count_given, slow_get};
ghost use Rattle.redis_commands.specs.Reading.{read_by, natural_by, same_by};

use crate::command::{ClientFilter, ClientsCommand, SlowlogCommand};
use crate::fault::CommandFault;
use crate::name::{Parent, is};
use crate::number::integer;
use crate::options::is_default;

/// Whether the type that the word names is the one that all clients are of.
fn client_type<'a>(word: &'a [u8]) -> Result<bool, CommandFault<'a>>
    ensures { same_by result ≡ client_type word.now }
{
    if is("normal", word) {
        Ok(true)
    } else if is("master", word) || is("replica", word) || is("slave", word) || is("pubsub", word) {
        Ok(false)
    } else {
        Err(CommandFault::ClientType(word))
    }
}

/// Returns a client's number, which is above 0.
fn above_0<'a>(n: i64) -> Result<u64, CommandFault<'a>>
    ensures { natural_by result ≡ above_0 n }
{
    match u64::try_from(n) {
        Ok(number) if number > 0 => Ok(number),
        _ => Err(CommandFault::ClientNumber),
    }
}

/// Reads a client's number.
fn client_number<'a>(text: &[u8]) -> Result<u64, CommandFault<'a>>
    ensures { natural_by result ≡ client_number text.now }
{
    match integer(text) {
        Some(n) => above_0(n),
        None => Err(CommandFault::ClientNumber),
    }
}

/// Whether the client that asks is spared.
fn spares<'a>(word: &[u8]) -> Result<bool, CommandFault<'a>>
    ensures { same_by result ≡ spares word.now }
{
    if is("yes", word) {
        Ok(true)
    } else if is("no", word) {
        Ok(false)
    } else {
        Err(CommandFault::Syntax)
    }
}

/// All clients but the one who asks.
const NO_FILTER: ClientFilter<'static> = ClientFilter {
    number: None,
    address: None,
    local_address: None,
    is_normal: true,
    spares_own: true,
};

impl<'a> ClientFilter<'a> {
    /// The same filter. There is one user.
    fn of_user(self, user: &'a [u8]) -> Result<ClientFilter<'a>, CommandFault<'a>>
        ensures { read_by filter_view result ≡ of_user (filter_view self.entry) user.now }
    {
        if is_default(user) {
            Ok(self)
        } else {
            Err(CommandFault::NoUser(user))
        }
    }

    /// Adds an option and its value.
    fn with_option(self, word: &[u8], value: &'a [u8]) -> Result<ClientFilter<'a>, CommandFault<'a>>
        ensures { read_by filter_view result ≡ filtered (filter_view self.entry) word.now value.now }
    {
        if is("id", word) {
            let number = Some(client_number(value)?);
            Ok(ClientFilter { number, ..self })
        } else if is("type", word) {
            let is_normal = client_type(value)?;
            Ok(ClientFilter { is_normal, ..self })
        } else if is("addr", word) {
            let address = Some(value);
            Ok(ClientFilter { address, ..self })
        } else if is("laddr", word) {
            let local_address = Some(value);
            Ok(ClientFilter {
                local_address,
                ..self
            })
        } else if is("user", word) {
            self.of_user(value)
        } else if is("skipme", word) {
            let spares_own = spares(value)?;
            Ok(ClientFilter { spares_own, ..self })
        } else {
            Err(CommandFault::Syntax)
        }
    }

    /// Reads the options.
    fn read(words: &'a [&'a [u8]]) -> Result<ClientFilter<'a>, CommandFault<'a>>
        ensures { read_by filter_view result ≡ filter_of no_filter (texts words.now) }
    {
        let mut filter = NO_FILTER;
        let mut left = words;
        while let [option, value, more @ ..] = left {
            filter = filter.with_option(option, value)?;
            left = more;
        }
        if left.is_empty() {
            Ok(filter)
        } else {
            Err(CommandFault::Syntax)
        }
    }
}

/// Returns what the options of `CLIENT KILL` ask for.
fn kill_by<'a>(args: &'a [&'a [u8]]) -> Result<ClientsCommand<'a>, CommandFault<'a>>
    ensures { read_by clients_by result ≡ kill_by (texts args.now) }
{
    let filter = ClientFilter::read(args)?;
    Ok(ClientsCommand::Kill { filter })
}

/// Returns what the arguments of `CLIENT KILL` ask for.
pub(crate) fn kill<'a>(args: &'a [&'a [u8]]) -> Result<ClientsCommand<'a>, CommandFault<'a>>
    ensures { read_by clients_by result ≡ kill (texts args.now) }
{
    match args {
        [] => kill_by(args),
        [address] => Ok(ClientsCommand::KillAt { address }),
        [_, _, ..] => kill_by(args),
    }
}

/// Whether each word is a number.
fn are_numbers(words: &[&[u8]]) -> bool
    ensures { result ≡ are_numbers (texts words.now) }
{
    for word in words {
        if integer(word).is_none() {
            return false;
        }
    }
    true
}

/// Returns what `CLIENT LIST ID` asks for.
fn named<'a>(numbers: &'a [&'a [u8]]) -> Result<ClientsCommand<'a>, CommandFault<'a>>
    ensures { read_by clients_by result ≡ named (texts numbers.now) }
{
    if are_numbers(numbers) {
        Ok(ClientsCommand::Named { numbers })
    } else {
        Err(CommandFault::ListedNumber)
    }
}

/// Returns the list of all clients or of none.
fn listed<'a>(is_normal: bool) -> ClientsCommand<'a>
    ensures { clients_by result ≡ listed is_normal }
{
    if is_normal {
        ClientsCommand::List
    } else {
        ClientsCommand::Nobody
    }
}

/// Returns what `CLIENT LIST TYPE` asks for.
fn of_type<'a>(words: &'a [&'a [u8]]) -> Result<ClientsCommand<'a>, CommandFault<'a>>
    ensures { read_by clients_by result ≡ of_type (texts words.now) }
{
    match words {
        [word] => {
            let is_normal = client_type(word)?;
            Ok(listed(is_normal))
        }
        _ => Err(CommandFault::Syntax),
    }
}

/// Returns what the arguments of `CLIENT LIST` ask for.
pub(crate) fn list<'a>(args: &'a [&'a [u8]]) -> Result<ClientsCommand<'a>, CommandFault<'a>>
    ensures { read_by clients_by result ≡ list (texts args.now) }
{
    match args {
        [] => Ok(ClientsCommand::List),
        [_] => Err(CommandFault::Syntax),
        [option, values @ ..] => {
            if is("id", option) {
                named(values)
            } else if is("type", option) {
                of_type(values)
            } else {
                Err(CommandFault::Syntax)
            }
        }
    }
}

/// Returns what a count asks for: this many, or all.
fn slow_count<'a>(n: i64) -> Result<SlowlogCommand, CommandFault<'a>>
    ensures { same_by result ≡ slow_count n }
{
    match u64::try_from(n) {
        Ok(count) => Ok(SlowlogCommand::Get { count: Some(count) }),
        Err(_) if n == -1 => Ok(SlowlogCommand::Get { count: None }),
        Err(_) => Err(CommandFault::SlowlogCount),
    }
}

/// Reads a count.
fn count_given<'a>(text: &[u8]) -> Result<SlowlogCommand, CommandFault<'a>>
    ensures { same_by result ≡ count_given text.now }
{
    match integer(text) {
        Some(n) => slow_count(n),
        None => Err(CommandFault::SlowlogCount),
    }
}

/// Returns what the arguments of `SLOWLOG GET` ask for, which this word named.
pub(crate) fn slow_get<'a>(
    word: &'a [u8],
    args: &'a [&'a [u8]],
) -> Result<SlowlogCommand, CommandFault<'a>>
    ensures { same_by result ≡ slow_get word.now (texts args.now) }
{
    match args {
        [] => Ok(SlowlogCommand::Get { count: Some(10) }),
        [count] => count_given(count),
        _ => Err(CommandFault::WrongSub {
            parent: Parent::Slowlog,
            word,
        }),
    }
}
