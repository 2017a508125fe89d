// What is answered to a line.
use engine::reduce::{Reduced, Stop};
use std::fmt;

// The answer to a line whose ticket is not refused.
#[derive(Clone, Copy)]
pub(crate) enum Answer<'t> {
    // the line is of another form
    BadLine,
    // the ticket has more symbols than the pool has nodes
    NoRoom,
    Reduced(Held<'t>),
    // the pool did not load, reduce or show a ticket for which it has room
    Failed,
}

// The term of a ticket that was reduced, and the nodes that are free beside it.
#[derive(Clone, Copy)]
pub(crate) struct Held<'t> {
    pub reduced: Reduced,
    pub free: usize,
    pub text: &'t str,
}

// The word for why no more steps were made.
fn word(stop: Stop) -> &'static str {
    match stop {
        Stop::Finished => "finished",
        Stop::Spent => "spent",
        Stop::Short => "short",
    }
}

impl<'t> fmt::Display for Held<'t> {
    fn fmt<W: fmt::Write>(&self, f: &mut fmt::Formatter<W>) -> fmt::Result {
        let Held {
            reduced,
            free,
            text,
        } = *self;
        write!(f, "{} {} {free} {text}", word(reduced.stop), reduced.steps)
    }
}

impl<'t> fmt::Display for Answer<'t> {
    fn fmt<W: fmt::Write>(&self, f: &mut fmt::Formatter<W>) -> fmt::Result {
        match self {
            Answer::BadLine => f.write_str("bad line"),
            Answer::NoRoom => f.write_str("no room"),
            Answer::Reduced(held) => write!(f, "{held}"),
            Answer::Failed => f.write_str("failed"),
        }
    }
}
