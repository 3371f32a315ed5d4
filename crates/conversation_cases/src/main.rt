//! Runs the conversations of the files that its arguments name through `hns pipe`, and tells what differs. The form of a file:
//! docs/TESTING.md.
//!
//! Each conversation runs whole and in pieces, and then with each of its first reads and writes failing in turn. Standard output has
//! `NAME ok` or `NAME DIFFERS` for each, and then how many codes of errors were seen in all replies together; standard error has what
//! differs in words; the status is 1 where something does, 2 where the words are no text. Nothing is proved of this program but that it is safe and ends.
#![tactic(auto)]

mod codes;
mod compare;
mod draft;
mod failing;
mod form;
mod reply;
mod run;
mod whole;

use codes::Unseen;
use failing::try_failing;
use form::Conversation;
use run::Ran;
use std::alloc::{AllocError, Global};
use std::process::ExitCode;
use std::{env, fs};
use whole::try_cuts;

// What differs in the conversation of a file, in words; an empty text where nothing does.
fn differences(alloc: Global, text: &str, unseen: &mut Unseen) -> Result<String, AllocError> {
    let mut out = String::new(alloc);
    match form::read(alloc, text)? {
        Ok(conversation) => {
            let ran = try_all(alloc, &conversation, &mut out)?;
            unseen.see(alloc, ran.written.as_slice())?;
        }
        Err(line) => write!(out, "  line {line} cannot be read\n")?,
    }
    Ok(out)
}

fn try_all(
    alloc: Global,
    conversation: &Conversation,
    out: &mut String,
) -> Result<Ran, AllocError> {
    let ran = try_cuts(alloc, conversation, out)?;
    if out.is_empty() {
        try_failing(alloc, conversation, &ran, out)?;
    }
    Ok(ran)
}

// Prints the name and `ok`, or the name, and on standard error what differs, and answers whether nothing did.
fn tell(rt: &HostRuntime, name: &str, differences: &str) -> bool {
    if differences.is_empty() {
        println!(rt; "{name} ok").is_ok()
    } else {
        let _ = println!(rt; "{name} DIFFERS");
        let _ = eprint!(rt; "{name} DIFFERS\n{differences}");
        false
    }
}

fn show(rt: &HostRuntime, name: &str, unseen: &mut Unseen) -> bool {
    let Ok(file) = format!(in rt.alloc(); "{name}.txt") else {
        return false;
    };
    match fs::read_to_string(rt, file.as_str()) {
        Ok(text) => match differences(rt.alloc(), text.as_str(), unseen) {
            Ok(differences) => tell(rt, name, differences.as_str()),
            Err(_) => tell(rt, name, "  there is no memory left\n"),
        },
        Err(_) => tell(rt, name, "  its file cannot be read as text\n"),
    }
}

fn tell_codes(rt: &HostRuntime, unseen: &Unseen) -> bool {
    let (seen, all) = unseen.counts();
    println!(rt; "codes seen: {seen} of {all}").is_ok()
}

fn main(rt: HostRuntime) -> ExitCode {
    let Ok(names) = env::args(&rt) else {
        return ExitCode::from(2);
    };
    let Ok(mut unseen) = Unseen::new(rt.alloc()) else {
        return ExitCode::from(1);
    };
    let mut same = true;
    for name in names.skip(1) {
        same = show(&rt, name.as_str(), &mut unseen) && same;
    }
    same = tell_codes(&rt, &unseen) && same;
    ExitCode::from(if same { 0 } else { 1 })
}
