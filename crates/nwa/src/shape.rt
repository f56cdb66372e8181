// The machines that a command can name, and work that is done with one of them.
use crate::failure::ParseError;
use crate::words::{Words, byte};
use layers::{And, Join, Not, Or, Pair};
use machines::depth::Depth;
use machines::names::Names;
use nested::machine::Machine;

const MACHINE: &str =
    "a machine: names, depth K, not MACHINE, both MACHINE MACHINE or either MACHINE MACHINE";

const OPERAND: &str = "a machine without a layer of its own but not: names, depth K or not MACHINE";

const DEPTH: &str = "a number after depth";

/// A machine, or its complement.
#[derive(Clone, Copy, PartialEq, Eq, Hash, Debug)]
pub enum Signed<T> {
    Plain(T),
    Not(T),
}

/// A machine that stands on no other.
#[derive(Clone, Copy, PartialEq, Eq, Hash, Debug)]
pub enum Simple {
    Names,
    Depth(u8),
}

/// How two machines are joined.
#[derive(Clone, Copy, PartialEq, Eq, Hash, Debug)]
pub enum Layer {
    Both,
    Either,
}

/// Two machines, joined.
#[derive(Clone, Copy, PartialEq, Eq, Hash, Debug)]
pub struct Two {
    layer: Layer,
    first: Signed<Simple>,
    second: Signed<Simple>,
}

/// The machines that a command can name. An even number of `not` in front of a machine leaves it as it is.
#[derive(Clone, Copy, PartialEq, Eq, Hash, Debug)]
pub enum Shape {
    One(Signed<Simple>),
    Two(Signed<Two>),
}

/// Work that is done with a machine of any type, and answers an `A`.
///
/// It is a trait, and no closure or `dyn`: a closure takes one type, and machines differ in the type of their states.
pub trait Task<A> {
    fn run<M: Machine + Drop>(self, machine: M) -> A;
}

/// What a command can name for a machine: it makes the machine and does the work with it.
pub trait Made {
    fn with<A, T: Task<A>>(self, task: T) -> A;
}

impl<T> Signed<T> {
    fn new(negated: bool, machine: T) -> Signed<T> {
        if negated {
            Signed::Not(machine)
        } else {
            Signed::Plain(machine)
        }
    }
}

impl Simple {
    fn parse(
        keyword: &str,
        words: &mut Words,
        expected: &'static str,
    ) -> Result<Simple, ParseError> {
        match keyword {
            "names" => Ok(Simple::Names),
            "depth" => Ok(Simple::Depth(byte(words.expect(DEPTH)?, DEPTH)?)),
            _ => Err(ParseError::Expected(expected)),
        }
    }
}

impl Made for Simple {
    fn with<A, T: Task<A>>(self, task: T) -> A {
        match self {
            Simple::Names => task.run(Names::new()),
            Simple::Depth(k) => task.run(Depth::new(k)),
        }
    }
}

impl Signed<Simple> {
    fn parse(words: &mut Words) -> Result<Signed<Simple>, ParseError> {
        let negated = words.odd("not");
        let keyword = words.expect(OPERAND)?;
        Ok(Signed::new(negated, Simple::parse(keyword, words, OPERAND)?))
    }
}

// Hands the complement of its machine on.
struct Complement<T>(T);

impl<A, T: Task<A>> Task<A> for Complement<T> {
    fn run<M: Machine + Drop>(self, machine: M) -> A {
        let Complement(task) = self;
        task.run(Not::new(machine))
    }
}

impl<M: Made> Made for Signed<M> {
    fn with<A, T: Task<A>>(self, task: T) -> A {
        match self {
            Signed::Plain(machine) => machine.with(task),
            Signed::Not(machine) => machine.with(Complement(task)),
        }
    }
}

// Takes the first machine of a pair, and goes on to the second.
struct PairWith<J, T> {
    second: Signed<Simple>,
    join: J,
    task: T,
}

impl<A, J: Join + Drop, T: Task<A>> Task<A> for PairWith<J, T> {
    fn run<M: Machine + Drop>(self, first: M) -> A {
        let PairWith { second, join, task } = self;
        second.with(PairAfter { first, join, task })
    }
}

// Takes the second machine of a pair, and hands the pair on.
struct PairAfter<M, J, T> {
    first: M,
    join: J,
    task: T,
}

impl<A, F: Machine + Drop, J: Join + Drop, T: Task<A>> Task<A> for PairAfter<F, J, T> {
    fn run<M: Machine + Drop>(self, second: M) -> A {
        let PairAfter { first, join, task } = self;
        task.run(Pair::new(first, second, join))
    }
}

impl Two {
    fn parse(layer: Layer, words: &mut Words) -> Result<Two, ParseError> {
        Ok(Two {
            layer,
            first: Signed::parse(words)?,
            second: Signed::parse(words)?,
        })
    }

    fn joined<A, J: Join + Drop, T: Task<A>>(self, join: J, task: T) -> A {
        let Two { first, second, .. } = self;
        first.with(PairWith { second, join, task })
    }
}

impl Made for Two {
    fn with<A, T: Task<A>>(self, task: T) -> A {
        match self.layer {
            Layer::Both => self.joined(And, task),
            Layer::Either => self.joined(Or, task),
        }
    }
}

impl Shape {
    /// Reads a machine off the front of a command's words.
    pub fn parse(words: &mut Words) -> Result<Shape, ParseError> {
        let negated = words.odd("not");
        match words.expect(MACHINE)? {
            "both" => Ok(Shape::Two(Signed::new(negated, Two::parse(Layer::Both, words)?))),
            "either" => Ok(Shape::Two(Signed::new(negated, Two::parse(Layer::Either, words)?))),
            keyword => Ok(Shape::One(Signed::new(
                negated,
                Simple::parse(keyword, words, MACHINE)?,
            ))),
        }
    }
}

impl Made for Shape {
    fn with<A, T: Task<A>>(self, task: T) -> A {
        match self {
            Shape::One(machine) => machine.with(task),
            Shape::Two(machine) => machine.with(task),
        }
    }
}
