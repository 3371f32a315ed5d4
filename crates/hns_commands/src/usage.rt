//! What the program says of itself.

const USAGE: &str = "\
usage: hns pipe [LIMITS]
       hns serve --addr HOST:PORT [--workers N] [--connections N] [LIMITS]
       hns --help | hns pipe --help | hns serve --help | hns --version";

const HELP: &str = "\
hns serves the Filesystem and Path calls of Azure Data Lake Storage Gen2 from memory.

usage: hns pipe [LIMITS]
         serves HTTP/1.1 requests from standard input and writes the replies to standard output
       hns serve --addr HOST:PORT [--workers N] [--connections N] [LIMITS]
         serves HTTP/1.1 connections over TCP
       hns pipe --help, hns serve --help
         tells more of a command
       hns --version
         tells the version

LIMITS, each at most once, as --journal-max 3 or --journal-max=3:
  --journal-max N   at most so many requests are kept, 1 to 4194304 (4194304 where it is not given)
  --bytes-max N     with at most so many bytes of bodies, 0 to 2147483648 (2147483648)
  --requests-max N  at most so many requests of a connection are answered, 1 to 1048576 (1048576)";

const PIPE_HELP: &str = "\
usage: hns pipe [--journal-max N] [--bytes-max N] [--requests-max N]
  serves HTTP/1.1 requests from standard input and writes the replies to standard output
  --journal-max N   at most so many requests are kept, 1 to 4194304 (4194304 where it is not given)
  --bytes-max N     with at most so many bytes of bodies, 0 to 2147483648 (2147483648)
  --requests-max N  at most so many requests are answered, 1 to 1048576 (1048576)

exit status: 0 where the input ended between two requests or the last one closed the connection, 2 for
  other words, 3 where reading failed, 4 where writing failed, 5 for want of memory, 6 where the input
  ended within a request or is none, 8 where a limit was reached";

const SERVE_HELP: &str = "\
usage: hns serve --addr HOST:PORT [--workers N] [--connections N]
                 [--journal-max N] [--bytes-max N] [--requests-max N]
  serves HTTP/1.1 connections over TCP from one namespace in memory. Whoever reaches the port names the
  caller, by the header x-ms-caller: listen at 127.0.0.1, or behind a proxy that sets that header.
  --addr HOST:PORT  where to listen; port 0 takes a free one, which standard error tells
  --workers N       so many connections are served at once, 1 to 64 (4 where it is not given)
  --connections N   after so many connections the summary is written and the program ends, 1 to
                    4294967295 (4294967295)
  --journal-max N   at most so many requests are kept, 1 to 4194304 (4194304)
  --bytes-max N     with at most so many bytes of bodies, 0 to 2147483648 (2147483648)
  --requests-max N  at most so many requests of a connection are answered, 1 to 1048576 (1048576)

exit status: 0 where the summary was written, 2 for other words, 4 where writing it failed, 5 for want of
  memory, 7 where there is no listening at the address";

const VERSION: &str = "hns 0.1.0";

/// What the program says where its words are no command, and the exit status: what was asked for, by `--help` or `--version`, with 0, and
/// else how it is used, with 2.
pub fn text_of(words: &[String]) -> (&'static str, u8) {
    let first = word_at(words, 0);
    let second = word_at(words, 1);
    match (first, second, words.len()) {
        ("--help" | "-h" | "help", _, 1) => (HELP, 0),
        ("--version" | "-V", _, 1) => (VERSION, 0),
        ("pipe", "--help" | "-h", 2) => (PIPE_HELP, 0),
        ("serve", "--help" | "-h", 2) => (SERVE_HELP, 0),
        _ => (USAGE, 2),
    }
}

fn word_at(words: &[String], place: usize) -> &str {
    match words.get(place) {
        Some(word) => word.as_str(),
        None => "",
    }
}
