//! The program `hns`: the commands of `hns_commands` over standard input and output, TCP, and the clock of the system.
#![tactic(auto)]

ghost use Rattle.std.specs.Prelude.{◌≡◌, IfOk};

use command_words::{Job, ServeWords, read_words};
use conn_io::{StdIn, StdOut, SystemClock, TcpList};
use hns_commands::{Served, run_pipe, run_serve, text_of};
use std::alloc::AllocError;
use std::io::ErrorKind;
use std::net::TcpListener;
use std::process::ExitCode;
use std::{env, mem};

fn main(rt: HostRuntime) -> ExitCode {
    let arguments = match env::args(&rt) {
        Ok(arguments) => arguments,
        Err(fault) => match fault.kind() {
            ErrorKind::OutOfMemory => return ExitCode::from(5),
            _ => {
                // Words that are no text are no command either.
                let _ = eprintln!(rt; "{}", text_of(&[]).0);
                return ExitCode::from(2);
            }
        },
    };
    let mut words = Vec::new(rt.alloc());
    for word in arguments.skip(1) {
        if words.push(word).is_err() {
            return ExitCode::from(5);
        }
    }
    let status = match read_words(words.as_slice()) {
        Some(Job::Pipe(_)) => pipe(&rt, words.as_slice()),
        Some(Job::Serve(asked)) => match ends_of(&rt, &asked) {
            Ok((listener, clocks)) => {
                let mut out = StdOut::new(rt.stdout());
                let served = run_serve(
                    &rt,
                    rt.alloc(),
                    words.as_slice(),
                    listener,
                    clocks,
                    &mut out,
                );
                let status = served.status;
                // The process ends here, and its nodes with it: they need not be given back one by one.
                mem::forget(served);
                status
            }
            Err(status) => status,
        },
        None => explain(&rt, words.as_slice()),
    };
    ExitCode::from(status)
}

fn pipe(rt: &HostRuntime, words: &[String]) -> u8 {
    let mut source = StdIn::new(rt.stdin());
    let mut sink = StdOut::new(rt.stdout());
    let mut clock = SystemClock::new(rt);
    run_pipe(rt.alloc(), words, &mut source, &mut sink, &mut clock)
}

// The listener at the address, and a clock for each worker; or the exit status, where there can be none.
fn ends_of<'a>(
    rt: &'a HostRuntime,
    asked: &ServeWords<'_>,
) -> Result<(TcpList<'a, HostRuntime>, Vec<SystemClock<&'a HostRuntime>>), u8>
    ensures given { IfOk result (λ ends. ends.0.given ≡ 0) }
    ensures faults { IfOk result (λ ends. ends.0.faults ≡ 0) }
{
    let listener = match TcpListener::bind(rt, asked.addr) {
        Ok(listener) => listener,
        Err(fault) => {
            let _ = eprintln!(rt; "hns: cannot listen at {}: {fault}", asked.addr);
            return Err(7);
        }
    };
    let workers = asked.limits.passes();
    let Ok(clocks) = clocks_of(rt, workers) else {
        return Err(5);
    };
    if let Ok(addr) = listener.local_addr() {
        let _ = eprintln!(rt;
            "hns: listening at {addr}; {workers} workers, so {workers} connections at once"
        );
    }
    Ok((TcpList::new(rt, rt.alloc(), listener), clocks))
}

fn clocks_of<'a>(
    rt: &'a HostRuntime,
    count: u32,
) -> Result<Vec<SystemClock<&'a HostRuntime>>, AllocError> {
    let mut clocks = Vec::new(rt.alloc());
    for _ in 0..count {
        clocks.push(SystemClock::new(rt))?;
    }
    Ok(clocks)
}

// What the program says where its words are no command: what was asked for on standard output, and usage on standard error.
fn explain(rt: &HostRuntime, words: &[String]) -> u8 {
    let (text, status) = text_of(words);
    if status == 0 {
        match println!(rt; "{text}") {
            Ok(()) => 0,
            Err(_) => 4,
        }
    } else {
        let _ = eprintln!(rt; "{text}");
        status
    }
}
