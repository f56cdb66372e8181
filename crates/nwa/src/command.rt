// The commands, and how one is answered.
use crate::check::answer_check;
use crate::failure::{Failure, ParseError};
use crate::files::{Files, LIST};
use crate::follow::answer_follow;
use crate::letters::{answer_letters, answer_show};
use crate::names::answer_names;
use crate::shape::Shape;
use crate::words::{Words, byte};
use crate::write::answer_write;
use std::alloc::Global;

const COMMAND: &str =
    "a command: follow MACHINE CODE..., names LIST, letters LIST RECORD, show LIST RECORD, check LIST RECORD MACHINE or write LIST OUT CODE...";

const OUT: &str = "the file to write";

const CODE: &str = "a letter code: a number from 0 to 47";

#[derive(Debug, Drop)]
enum Command<'a> {
    Follow(Shape, Vec<u8>),
    Names(&'a str),
    Letters(Files<'a>),
    Show(Files<'a>),
    Check(Files<'a>, Shape),
    Write(&'a str, &'a str, Vec<u8>),
}

// The letter codes that are left of a command.
fn parse_codes(words: Words, heap: Global) -> Result<Vec<u8>, ParseError> {
    let Words(rest) = words;
    rest.map(|word| byte(word, CODE)).try_collect(heap)
}

fn parse<'a>(mut words: Words<'a>, heap: Global) -> Result<Command<'a>, ParseError> {
    match words.expect(COMMAND)? {
        "follow" => {
            let machine = Shape::parse(&mut words)?;
            Ok(Command::Follow(machine, parse_codes(words, heap)?))
        }
        "names" => {
            let list = words.expect(LIST)?;
            words.end()?;
            Ok(Command::Names(list))
        }
        "letters" => {
            let files = Files::parse(&mut words)?;
            words.end()?;
            Ok(Command::Letters(files))
        }
        "show" => {
            let files = Files::parse(&mut words)?;
            words.end()?;
            Ok(Command::Show(files))
        }
        "check" => {
            let files = Files::parse(&mut words)?;
            let machine = Shape::parse(&mut words)?;
            words.end()?;
            Ok(Command::Check(files, machine))
        }
        "write" => {
            let list = words.expect(LIST)?;
            let out = words.expect(OUT)?;
            Ok(Command::Write(list, out, parse_codes(words, heap)?))
        }
        _ => Err(ParseError::Expected(COMMAND)),
    }
}

/// Answers a command, once the whole of it is understood.
pub fn answer<'a>(words: &'a [&'a str], rt: &HostRuntime) -> Result<(), Failure<'a>> {
    match parse(Words(words.iter()), rt.alloc())? {
        Command::Follow(machine, codes) => answer_follow(machine, &codes, rt),
        Command::Names(list) => answer_names(list, rt),
        Command::Letters(files) => answer_letters(files, rt),
        Command::Show(files) => answer_show(files, rt),
        Command::Check(files, machine) => answer_check(files, machine, rt),
        Command::Write(list, out, codes) => answer_write(list, out, &codes, rt),
    }
}
