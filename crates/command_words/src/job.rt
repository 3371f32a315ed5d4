//! What the words of a command line ask for.
ghost use Rattle.std.specs.Prelude.{◌≡◌, option_map};
ghost use Rattle.command_words.specs.Words.{addr_given, count_given, limits_for, options_behind, pipe_limits, serve_given, serve_in, serve_told, IsJobOf};

use super::options::{are_options, number_of, value_of};
use commit_journal::{BYTES_MOST, JOURNAL_MOST, Limits, PASSES_MOST, REQUESTS_MOST};

/// A command of the program.
#[derive(Clone, Copy, Debug, PartialEq, Eq)]
pub enum Command {
    Pipe,
    Serve,
}

/// What `serve` is asked for: the limits, of which the passes are the workers, the address to listen at, and how many connections are
/// served at most.
#[derive(Clone, Copy)]
pub struct ServeWords<'a> {
    pub limits: Limits,
    pub addr: &'a str,
    pub connections: u32,
}

/// What a command line asks for.
#[derive(Clone, Copy)]
pub enum Job<'a> {
    Pipe(Limits),
    Serve(ServeWords<'a>),
}

/// What the words ask for, and nothing where they are no command of the program.
pub fn read_words(words: &[String]) -> Option<Job<'_>>
    ensures { IsJobOf words.now result }
{
    if let Some(limits) = pipe_limits(words) {
        return Some(Job::Pipe(limits));
    }
    match serve_words(words) {
        Some(asked) => Some(Job::Serve(asked)),
        None => None,
    }
}

/// The limits that the words give: the word `pipe`, and then its options.
pub fn pipe_limits(words: &[String]) -> Option<Limits>
    ensures { result ≡ pipe_limits words.now }
{
    limits_of(1, options_behind(Command::Pipe, "pipe", words)?)
}

/// What the words ask of `serve`: the word `serve`, and then its options, of which `--addr` is not left out.
pub fn serve_words(words: &[String]) -> Option<ServeWords<'_>>
    ensures { option_map serve_told result ≡ serve_given words.now }
{
    serve_in(options_behind(Command::Serve, "serve", words)?)
}

// The words behind the command, where all of them are its options.
fn options_behind<'a>(command: Command, name: &str, words: &'a [String]) -> Option<&'a [String]>
    ensures { option_map (λ options. options.now) result ≡ options_behind command name.now words.now }
{
    let (first, options) = words.split_first()?;
    if first.as_str() == name && are_options(command, options) {
        Some(options)
    } else {
        None
    }
}

// What the options of `serve` ask for.
fn serve_in(options: &[String]) -> Option<ServeWords<'_>>
    ensures { option_map serve_told result ≡ serve_in options.now }
{
    let addr = addr_of(options)?;
    let workers = count_of(options, "--workers", 4, PASSES_MOST)?;
    let connections = count_of(options, "--connections", u32::MAX, u32::MAX)?;
    let limits = limits_of(workers, options)?;
    Some(ServeWords {
        limits,
        addr,
        connections,
    })
}

// The address, which is not empty.
fn addr_of(options: &[String]) -> Option<&str>
    ensures { option_map (λ addr. addr.now) result ≡ addr_given options.now }
{
    let addr = value_of(options, "--addr")??;
    if addr.is_empty() { None } else { Some(addr) }
}

// The number of an option, from 1 to the greatest.
fn count_of(options: &[String], name: &str, otherwise: u32, most: u32) -> Option<u32>
    ensures { result ≡ count_given name.now otherwise most options.now }
{
    let count = number_of(options, name, u64::from(otherwise))?;
    if 1 <= count && count <= u64::from(most) {
        Some(count as u32)
    } else {
        None
    }
}

// The limits of so many passes that options give.
fn limits_of(passes: u32, options: &[String]) -> Option<Limits>
    ensures { result ≡ limits_for passes options.now }
{
    Limits::new(
        passes,
        number_of(options, "--journal-max", JOURNAL_MOST)?,
        number_of(options, "--bytes-max", BYTES_MOST)?,
        number_of(options, "--requests-max", REQUESTS_MOST)?,
    )
}
