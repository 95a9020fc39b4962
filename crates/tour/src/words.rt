// Values as they stand in the lines.
use std::fmt::{self, Display, Formatter};
use types::error::ProducerError;
use types::txn::TxnId;

// A number and what it counts: one, or more.
#[derive(Clone, Copy)]
pub struct Count(u64, &'static str, &'static str);

pub fn frames(n: usize) -> Count {
    Count(n as u64, "frame", "frames")
}

pub fn messages(n: u64) -> Count {
    Count(n, "message", "messages")
}

pub fn bytes(n: usize) -> Count {
    Count(n as u64, "byte", "bytes")
}

pub fn entries(n: u64) -> Count {
    Count(n, "entry", "entries")
}

impl Display for Count {
    fn fmt<W: fmt::Write>(&self, f: &mut Formatter<W>) -> fmt::Result {
        let what = if self.0 == 1 { self.1 } else { self.2 };
        write!(f, "{} {what}", self.0)
    }
}

// Text, with a dot for a byte that is no printed character.
#[derive(Clone, Copy)]
pub struct Printed<'a>(pub &'a [u8]);

impl Display for Printed<'_> {
    fn fmt<W: fmt::Write>(&self, f: &mut Formatter<W>) -> fmt::Result {
        for b in self.0 {
            f.write_char(match *b {
                b' '..=b'~' => char::from(*b),
                _ => '.',
            })?;
        }
        Ok(())
    }
}

// A value behind what introduces it; nothing where there is none.
#[derive(Clone, Copy)]
pub struct Given<T>(pub &'static str, pub Option<T>);

impl<T: Display> Display for Given<T> {
    fn fmt<W: fmt::Write>(&self, f: &mut Formatter<W>) -> fmt::Result {
        match &self.1 {
            Some(x) => write!(f, "{}{x}", self.0),
            None => Ok(()),
        }
    }
}

// What a mark says where it is set.
#[derive(Clone, Copy)]
pub struct Mark(pub &'static str, pub Option<bool>);

impl Display for Mark {
    fn fmt<W: fmt::Write>(&self, f: &mut Formatter<W>) -> fmt::Result {
        match self.1 {
            Some(true) => f.write_str(self.0),
            _ => Ok(()),
        }
    }
}

#[derive(Clone, Copy)]
pub struct Txn(pub TxnId);

impl Display for Txn {
    fn fmt<W: fmt::Write>(&self, f: &mut Formatter<W>) -> fmt::Result {
        write!(f, "{}:{}", self.0.most_sig_bits, self.0.least_sig_bits)
    }
}

#[derive(Clone, Copy)]
pub struct Refused(pub ProducerError);

// Document 01, 'Who can cause a refusal'.
impl Display for Refused {
    fn fmt<W: fmt::Write>(&self, f: &mut Formatter<W>) -> fmt::Result {
        let why = match self.0 {
            ProducerError::PartOutside => ", a part ends outside the store",
            ProducerError::NoFrame => ", no frame waits",
            ProducerError::NotAnswerable => ", the id is not answerable",
            _ => "",
        };
        write!(f, "refused by {}{why}", self.0.number())
    }
}

// What a call answers, or its refusal.
#[derive(Clone, Copy)]
pub struct Answered<T>(pub Result<T, ProducerError>);

impl<T: Display> Display for Answered<T> {
    fn fmt<W: fmt::Write>(&self, f: &mut Formatter<W>) -> fmt::Result {
        match &self.0 {
            Ok(x) => x.fmt(f),
            Err(e) => Refused(*e).fmt(f),
        }
    }
}
