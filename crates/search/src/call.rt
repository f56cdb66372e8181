// Calls of a search, and their answers, as data.
use crate::unwritten::Unwritten;
use crate::verdict::Report;
use items::item::Item;
use items::making::Making;
use nested::refusal::Refusal;

/// The rows that a call brings.
#[derive(Debug, Drop)]
pub struct Rows<S> {
    pub items: Vec<Item<S>>,
    pub makings: Vec<Making>,
}

/// One call of a search. Advancing and asking for the word may bring other rows. Where a call brings none, or rows of the lengths at
/// opening, it has the rows of the latest opening, as the search left them; before any opening these are empty.
#[derive(Debug, Drop)]
pub enum Call<S> {
    /// Opens the search with these rows.
    Open(Rows<S>),
    /// Advances by so many turns.
    Advance(usize, Option<Rows<S>>),
    /// Asks for the verdict.
    Verdict,
    /// Asks for the word, in this buffer.
    Word(Vec<u8>, Option<Rows<S>>),
}

/// The answer to a call.
#[derive(Debug, Drop)]
pub enum Answer {
    /// How many places there are.
    Opened(usize),
    /// How many turns were done, or that the rows were refused.
    Advanced(Result<usize, Refusal>),
    /// The verdict.
    Said(Report),
    /// How many letters the word has, or why it was not written; and the buffer.
    Handed(Result<usize, Unwritten>, Vec<u8>),
}
