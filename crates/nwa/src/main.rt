// nwa: questions about records of nested calls and returns.
//
// With words it answers one command, and ends with status 1 where that is refused or not understood. With none it reads commands
// from standard input, a line each, and answers them all.
#![tactic(auto)]

mod check;
mod command;
mod failure;
mod files;
mod follow;
mod letters;
mod names;
mod shape;
mod words;
mod write;

use command::answer;
use failure::Failure;
use std::io::{BufRead, BufReader};
use std::process::ExitCode;
use std::{env, io};

// Answers a command, and prints why where it is not carried out.
fn report(words: &[&str], rt: &HostRuntime) -> io::Result<ExitCode> {
    match answer(words, rt) {
        Ok(()) => Ok(ExitCode::SUCCESS),
        Err(Failure::Io(error)) => Err(error),
        Err(failure) => {
            println!(rt; "{failure}")?;
            Ok(ExitCode::FAILURE)
        }
    }
}

fn answer_line(line: &str, rt: &HostRuntime) -> io::Result<()> {
    let words: Vec<&str> = line.split_whitespace().collect(rt.alloc())?;
    if words.is_empty() || line.starts_with('#') {
        return Ok(());
    }
    println!(rt; "> {line}")?;
    let _ = report(&words, rt)?;
    Ok(())
}

fn answer_lines(rt: &HostRuntime) -> io::Result<ExitCode> {
    for line in BufReader::new(rt.alloc(), rt.stdin())?.lines(rt.alloc()) {
        answer_line(line?.as_str(), rt)?;
    }
    Ok(ExitCode::SUCCESS)
}

fn main(rt: HostRuntime) -> io::Result<ExitCode> {
    let args: Vec<String> = env::args(&rt)?.skip(1).collect(rt.alloc())?;
    if args.is_empty() {
        return answer_lines(&rt);
    }
    let words: Vec<&str> = args.iter().map(|arg| arg.as_str()).collect(rt.alloc())?;
    report(&words, &rt)
}
