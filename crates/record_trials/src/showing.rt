// What is printed of answers.
use algebras::weights::Count;
use model::refusal::Refusal;
use records::report::Report;
use std::fmt;

// An answer, in the words of the output.
#[derive(Clone, Copy)]
pub(crate) struct Shown<A>(pub(crate) A);

// What a call answered, if the record's state has the call.
impl fmt::Display for Shown<Option<Result<(), Refusal>>> {
    fn fmt<W: fmt::Write>(&self, f: &mut fmt::Formatter<W>) -> fmt::Result {
        match self.0 {
            None => write!(f, "not allowed"),
            Some(Ok(())) => write!(f, "accepted"),
            Some(Err(refusal)) => write!(f, "{refusal}"),
        }
    }
}

// A report without its letters, or why it is refused.
impl fmt::Display for Shown<Result<Report, Refusal>> {
    fn fmt<W: fmt::Write>(&self, f: &mut fmt::Formatter<W>) -> fmt::Result {
        match self.0 {
            Ok(
                Report {
                    first,
                    last,
                    cost,
                    ties,
                    second,
                },
            ) => {
                write!(f, "from {first} to {last}, cost {cost}, ties {ties}, ")?;
                match second {
                    Some(second) => write!(f, "second {second}"),
                    None => write!(f, "no second"),
                }
            }
            Err(refusal) => write!(f, "no report: {refusal}"),
        }
    }
}

// The number of paths, or why it is refused.
impl fmt::Display for Shown<Result<Count, Refusal>> {
    fn fmt<W: fmt::Write>(&self, f: &mut fmt::Formatter<W>) -> fmt::Result {
        match self.0 {
            Ok(count) => write!(f, "paths {}", count.value()),
            Err(refusal) => write!(f, "no count: {refusal}"),
        }
    }
}

// The letters of a buffer, with nothing between them.
impl fmt::Display for Shown<&[u8]> {
    fn fmt<W: fmt::Write>(&self, f: &mut fmt::Formatter<W>) -> fmt::Result {
        for letter in self.0 {
            write!(f, "{letter}")?;
        }
        Ok(())
    }
}
