//! fsc: replays a script over an encrypted directory tree in memory, and prints a log.
#![tactic(auto)]

mod advice;
mod asked;
mod bad_line;
mod caused;
mod commands;
mod difference;
mod help;
mod image_cause;
mod image_words;
mod inspect_advice;
mod kept;
mod lines;
mod seed_advice;
mod telling;

use advice::{advise_arguments, print_waiting_notice};
use asked::Asked;
use byte_words::wipe;
use caused::CausedSink;
use difference::print_difference;
use fsc_outside::{RuntimeSeed, StdSource, write_all};
use fsc_tool::{Difference, Mounts, Status, Streams, tool};
use help::{VERSION, advise, help_text, remark};
use kept::{RecordedSource, RecordedText};
use mount_shared::Mount;
use std::io::{ErrorKind, IsTerminal};
use std::process::ExitCode;
use std::sync::Wait;
use std::thread::Threads;
use std::{env, mem};
use telling::{TellingGate, clear_command};

// How it ended, and whether the reader of its output was closed.
#[derive(Clone, Copy)]
struct Ended {
    status: Status,
    is_closed: bool,
}

const NO_MEMORY: Ended = Ended {
    status: Status::NoMemory,
    is_closed: false,
};

const NO_READER: &str = "the output has no reader any more; what was read is a beginning of it";

// Inlined, so that all that a run wipes is in one function of the machine code, which tools can name.
#[inline(always)]
fn main(rt: HostRuntime) -> ExitCode {
    let mut words = match words_of(&rt) {
        Ok(words) => words,
        Err(status) => {
            let ended = Ended {
                status,
                is_closed: false,
            };
            return end(&rt, Asked::Other, ended, None);
        }
    };
    match words.as_slice() {
        [word] if word.as_str() == "--help" => print_help(&rt),
        [word] if word.as_str() == "--version" => print_text(&rt, VERSION),
        _ => run(&rt, &rt, &mut words),
    }
}

// Returns the arguments of the command line without the program's own name, or Usage if one isn't text.
fn words_of(rt: &HostRuntime) -> Result<Vec<String>, Status> {
    let words = match env::args(rt) {
        Ok(words) => words,
        Err(fault) if fault.kind() == ErrorKind::OutOfMemory => return Err(Status::NoMemory),
        Err(_) => return Err(Status::Usage),
    };
    words
        .skip(1)
        .collect(rt.alloc())
        .map_err(|_| Status::NoMemory)
}

// Prints the help text.
fn print_help(rt: &HostRuntime) -> ExitCode {
    match help_text(rt.alloc()) {
        Ok(text) => print_text(rt, text.as_str()),
        Err(_) => end(rt, Asked::Other, NO_MEMORY, None),
    }
}

// Prints a text on standard output.
fn print_text(rt: &HostRuntime, text: &str) -> ExitCode {
    let mut sink = CausedSink::over(rt.stdout());
    let status = match write_all(&mut sink, text.as_bytes()) {
        Ok(()) => Status::Done,
        Err(_) => Status::WriteFault,
    };
    let ended = Ended {
        status,
        is_closed: sink.is_closed(),
    };
    end(rt, Asked::Other, ended, None)
}

// Runs the tool, prints how that ended, and wipes the input. `threads` is the runtime too, which starts
// threads and waits: code in the threads needs no more of it.
fn run<R: Threads + Wait + Sync>(
    rt: &HostRuntime,
    threads: &R,
    words: &mut Vec<String>,
) -> ExitCode {
    let asked = Asked::of(words.as_slice());
    let is_terminal = rt.stderr().is_terminal();
    let kept = RecordedText::new(rt.alloc(), is_terminal);
    let mut difference = None;
    let ended = run_tool(rt, threads, words, asked, &kept, &mut difference);
    let code = match ended.status {
        Status::Usage => {
            advise_arguments(rt, words.as_slice());
            ExitCode::from(Status::Usage.number())
        }
        _ => end_run(rt, asked, ended, &kept),
    };
    if let Some(found) = &difference {
        print_difference(rt, found);
    }
    kept.forget();
    code
}

// Passes the arguments, the standard streams and two empty mounts to the tool, and returns what it found of
// a refused log.
fn run_tool<R: Threads + Wait + Sync>(
    rt: &HostRuntime,
    threads: &R,
    words: &mut Vec<String>,
    asked: Asked,
    kept: &RecordedText,
    difference: &mut Option<Difference>,
) -> Ended {
    let Ok(even) = Mount::new(rt.alloc()) else {
        return NO_MEMORY;
    };
    let Ok(odd) = Mount::new(rt.alloc()) else {
        return NO_MEMORY;
    };
    print_waiting_notice(rt, words.as_slice(), asked);
    let mut streams = Streams {
        source: RecordedSource::new(rt.alloc(), StdSource::new(rt), kept),
        sink: CausedSink::over(rt.stdout()),
        seeds: RuntimeSeed::new(rt),
        difference: None,
    };
    let gate = TellingGate::new(rt, kept, rt.stderr().is_terminal());
    let mounts = Mounts { even, odd };
    let status = tool(threads, rt.alloc(), words, &mut streams, &gate, mounts);
    *difference = mem::replace(&mut streams.difference, None);
    Ended {
        status,
        is_closed: streams.sink.is_closed(),
    }
}

// The same as `end` for a run. If a line of its input is at fault, the line is printed; then the input is
// wiped.
fn end_run(rt: &HostRuntime, asked: Asked, ended: Ended, kept: &RecordedText) -> ExitCode {
    let Some(mut text) = kept.take() else {
        return end(rt, asked, ended, None);
    };
    let code = end(rt, asked, ended, Some(text.as_slice()));
    wipe(text.as_mut_slice());
    code
}

// Prints the status and the remedy on standard error, unless the run is done, and ends with its number.
// `text` is the input, or `None` if it wasn't stored.
fn end(rt: &HostRuntime, asked: Asked, ended: Ended, text: Option<&[u8]>) -> ExitCode {
    let status = ended.status;
    if status == Status::NoMemory {
        clear_command(rt);
    }
    if status != Status::Done {
        let _ = rt.eprintln(status);
        match status {
            Status::WriteFault if ended.is_closed => remark(rt, NO_READER),
            _ => advise(rt, asked, status, text),
        }
    }
    ExitCode::from(status.number())
}
