ghost use Rattle.std.specs.Prelude.{◌≡◌, ◌↔◌, None, Some};
ghost use Rattle.commit_journal.specs.Limits.{LimitNumbers};
ghost use Rattle.command_words.specs.Words.{pipe_limits};
ghost use Rattle.hns_commands.specs.Piped.{Piped, status_of_end};

use command_words::pipe_limits;
use conn_io::{Clock, Sink, Source};
use engine::{End, Solo, serve_solo};
use std::alloc::Global;

/// `hns pipe`: serves one connection from an empty namespace, and answers the exit status: 0 where the source was at its end between two
/// requests or the last request asked for the connection to be closed, 3 where the source failed, 4 where the sink failed, 5 for want of
/// memory, 6 where the source was at its end within a request or its bytes are no request, 8 where as many requests were answered as one
/// connection may send and the last one did not ask for that, or where the journal is full.
///
/// The words are `pipe` and options, each at most once, as `--journal-max 3` or `--journal-max=3`: `--journal-max` requests of the journal,
/// `--bytes-max` bytes of their bodies, `--requests-max` requests of the connection. A number has 1 to 19 digits and is within its limits,
/// which are those of `Limits`; the greatest is the one that counts where an option is not given. Other words give 2, and then nothing is
/// read or written.
pub fn run_pipe<S: Source, K: Sink, C: Clock>(
    alloc: Global,
    words: &[String],
    source: &mut S,
    sink: &mut K,
    clock: &mut C,
) -> u8
    ensures piped { (limits : LimitNumbers) → pipe_limits words.now ≡ Some limits → Piped limits (S.left source.old) (S.left source.new)
        (K.out sink.old) (K.out sink.new) (C.ahead clock.old) (S.faults source.old) (S.faults source.new) (K.faults sink.old) (K.faults sink.new) result }
    ensures usage { (result ≡ 2) ↔ (pipe_limits words.now ≡ None) }
    ensures untouched { pipe_limits words.now ≡ None → (source.new ≡ source.old) × (sink.new ≡ sink.old) × (clock.new ≡ clock.old) }
{
    let Some(limits) = pipe_limits(words) else {
        return 2;
    };
    match Solo::start(alloc, &limits) {
        Ok(mut solo) => {
            let (_, end) = serve_solo(alloc, &mut solo, source, sink, clock);
            status_of_end(end)
        }
        Err(_) => status_of_end(End::NoMemory),
    }
}

fn status_of_end(end: End) -> u8
    ensures { result ≡ status_of_end end }
{
    match end {
        End::Done => 0,
        End::Spent => 8,
        End::CutShort(_) => 6,
        End::BadRequest(_) => 6,
        End::Busy(_) => 8,
        End::ReadFault => 3,
        End::WriteFault => 4,
        End::NoMemory => 5,
    }
}
