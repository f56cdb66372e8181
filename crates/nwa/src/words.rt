// The words of a command.
use crate::failure::ParseError;
use std::slice;

const END: &str = "the end of the command";

/// The words of a command that are not taken yet.
#[derive(Drop)]
pub struct Words<'a>(pub slice::Iter<'a, &'a str>);

impl<'a> Words<'a> {
    /// The next word, or what is expected in its place.
    pub fn expect(&mut self, what: &'static str) -> Result<&'a str, ParseError> {
        self.0.next().copied().ok_or(ParseError::Expected(what))
    }

    /// That no word is left.
    pub fn end(&mut self) -> Result<(), ParseError> {
        if self.0.next().is_some() {
            return Err(ParseError::Expected(END));
        }
        Ok(())
    }

    /// Passes over every `keyword` that comes next, and says whether their number is odd.
    pub fn odd(&mut self, keyword: &str) -> bool {
        let words = self.0.as_slice();
        let count = words.iter().take_while(|word| **word == keyword).count();
        self.0 = words[count..].iter();
        count % 2 == 1
    }
}

/// The byte that a word writes out; a larger number counts as 255.
pub fn byte(word: &str, what: &'static str) -> Result<u8, ParseError> {
    let number = word.parse::<u64>().map_err(|_| ParseError::Expected(what))?;
    Ok(u8::try_from(number).unwrap_or(u8::MAX))
}
