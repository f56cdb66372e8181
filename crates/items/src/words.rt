// The whole word of an item, unwound from the makings: its length, and its codes in a buffer.
ghost use Rattle.std.specs.Prelude.{◌≡◌, ◌+◌, ◌≤◌, min, length, Some};
ghost use Rattle.items.specs.Endings.{Ends, ending, letters_of};
ghost use Rattle.items.specs.Texts.{too_long_text};
ghost use Rattle.items.specs.Words.{word_of, word_parts};
ghost use Rattle.items.specs.Writing.{Stands, Writes};
ghost use Rattle.items.specs.declared.words.Part.TheVariants.{Whole, Local};

use crate::making::{How, Making};
use nested::letter::Letter;
use std::error::Error;
use std::fmt;

/// The most letters that a word is written with.
pub const LONGEST_WORD: usize = 1024;

/// That a word is longer than 1,024 letters or than the buffer: how many letters it has, or 1,025 where it has more than 1,024.
#[derive(Clone, Copy, Debug, PartialEq, Eq, Hash)]
pub struct TooLong {
    pub length: usize,
}

impl fmt::Display for TooLong {
    ghost output = { λ e. Some (too_long_text e) };

    fn fmt<W: fmt::Write>(&self, f: &mut fmt::Formatter<W>) -> fmt::Result {
        if self.length > LONGEST_WORD {
            write!(f, "the word has more than {LONGEST_WORD} letters")
        } else {
            write!(f, "the buffer is too short for {} letters", self.length)
        }
    }
}

impl Error for TooLong {}

// The whole word of an item, or its local word: what stands behind the latest call that is open.
#[derive(Clone, Copy, Debug)]
enum Part {
    Whole,
    Local,
}

// How a word that is not empty ends: a letter stands behind the same part of an item's word; or a call, the local word of a second item
// and a return do.
#[derive(Clone, Copy, Debug)]
enum Ending {
    One {
        from: usize,
        letter: Letter,
    },
    Pair {
        first: usize,
        second: usize,
        opened: u8,
        name: u8,
    },
}

// The word of the item with this number, or a part of it. It is unwound recursively: what it is made of are words of items with lower
// numbers. The makings stay an argument of the methods: a word that held them would be handed on in memory, a copy for each letter.
#[derive(Clone, Copy, Debug)]
struct Word {
    number: usize,
    part: Part,
}

// How the word of an item that was made so ends.
fn ending_by(how: How, part: Part, number: usize) -> Option<Ending>
    ensures { result ≡ ending part number how }
{
    match how {
        How::Stepped { from, letter } if from < number => Some(Ending::One { from, letter }),
        How::Entered { from, name } if from < number => match part {
            Part::Whole => Some(Ending::One {
                from,
                letter: Letter::Call(name),
            }),
            Part::Local => None,
        },
        How::Matched {
            first,
            second,
            opened,
            name,
        } if first < number && second < number => Some(Ending::Pair {
            first,
            second,
            opened,
            name,
        }),
        _ => None,
    }
}

impl Word {
    // The whole word of an item.
    fn whole(number: usize) -> Word
        ensures { result ≡ record { number = number; part = Whole } }
    {
        Word {
            number,
            part: Part::Whole,
        }
    }

    // The local word of an item.
    fn local(number: usize) -> Word
        ensures { result ≡ record { number = number; part = Local } }
    {
        Word {
            number,
            part: Part::Local,
        }
    }

    // The same part of another item's word.
    fn of(self, number: usize) -> Word
        ensures { result ≡ record self { number = number } }
    {
        Word { number, ..self }
    }

    // How the word ends, or `None` where it is empty. An item that the row does not have is begun.
    fn ending(self, makings: &[Making]) -> Option<Ending>
        ensures { Ends (word_parts makings.now) self.part self.number result }
    {
        let made = makings.get(self.number);
        ending_by(made.map_or(How::Begun, |m| m.how), self.part, self.number)
    }

    // How many letters the word has, or `room + 1` where it has more than `room`. Each letter is taken off the room before the next call,
    // so there are at most `room + 1` calls in all, however long the word is.
    fn length_within(self, makings: &[Making], room: usize) -> usize
        requires { room ≤ 1024 }
        ensures { result ≡ min (length (letters_of makings.now self.part self.number)) (room + 1) }
    {
        let Some(ending) = self.ending(makings) else {
            return 0;
        };
        match ending {
            Ending::One { .. } if room == 0 => 1,
            Ending::One { from, .. } => 1 + self.of(from).length_within(makings, room - 1),
            Ending::Pair { .. } if room < 2 => room + 1,
            Ending::Pair { first, second, .. } => {
                let inner = Word::local(second).length_within(makings, room - 2);
                if inner > room - 2 {
                    return room + 1;
                }
                2 + inner + self.of(first).length_within(makings, room - 2 - inner)
            }
        }
    }

    // Writes the codes of the word to the front of a buffer, and answers how many there are.
    fn put(self, makings: &[Making], out: &mut [u8]) -> usize
        requires { length (letters_of makings.now self.part self.number) ≤ length out.old }
        ensures { Stands out.old (letters_of makings.now self.part self.number) out.new result }
    {
        let Some(ending) = self.ending(makings) else {
            return 0;
        };
        match ending {
            Ending::One { from, letter } => {
                let last = self.of(from).put(makings, out);
                out[last] = u8::from(letter);
                last + 1
            }
            Ending::Pair {
                first,
                second,
                opened,
                name,
            } => {
                let call = self.of(first).put(makings, out);
                out[call] = u8::from(Letter::Call(opened));
                let inner = Word::local(second).put(makings, &mut out[call + 1..]);
                let last = call + 1 + inner;
                out[last] = u8::from(Letter::Return(name));
                last + 1
            }
        }
    }
}

/// How many letters the whole word of the item with this number has, or 1,025 where it has more than 1,024.
///
/// Any makings and any number are allowed: an item that has no making, or one from an item that is not before it, counts as begun.
pub fn word_length(makings: &[Making], number: usize) -> usize
    ensures { result ≡ min (length (word_of makings.now number)) 1025 }
{
    Word::whole(number).length_within(makings, LONGEST_WORD)
}

/// Writes the codes of the whole word of the item with this number to the front of a buffer, and answers how many there are.
///
/// Where the word is longer than 1,024 letters or than the buffer, the error has what `word_length` answers, and the buffer is as it
/// was. Otherwise the rest of the buffer is as it was.
pub fn write_word(makings: &[Making], number: usize, out: &mut [u8]) -> Result<usize, TooLong>
    ensures { Writes makings.now number out.old out.new result }
{
    let length = word_length(makings, number);
    if length > out.len().min(LONGEST_WORD) {
        return Err(TooLong { length });
    }
    Ok(Word::whole(number).put(makings, out))
}
