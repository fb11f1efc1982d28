// What is printed of numbers, bytes and answers.
use crate::calls::Look;
use look::{LookAnswer, Place};
use std::fmt;
use store::answers::{Answer, Ended, Listing};

// A number of things, as "1 step" and "19 steps".
#[derive(Clone, Copy)]
pub struct Count(pub usize, pub &'static str);

// A cell or a body: the byte that it is filled with, or the four bytes that it repeats, or 0..63 if its bytes rise so, or "mixed".
#[derive(Clone, Copy)]
pub struct Bytes<'a>(pub &'a [u8]);

// A call's answer, where a sweep has this budget. That a call which the sweep stops has stopped after as many steps is not said.
#[derive(Clone, Copy)]
pub struct Told {
    pub answer: Answer,
    pub swept: usize,
}

// How many domains are live, and their handles.
#[derive(Clone, Copy)]
pub struct Live(pub Listing);

impl fmt::Display for Count {
    fn fmt<W: fmt::Write>(&self, f: &mut fmt::Formatter<W>) -> fmt::Result {
        write!(f, "{} {}", self.0, self.1)?;
        if self.0 == 1 {
            return Ok(());
        }
        write!(f, "s")
    }
}

impl fmt::Display for Bytes<'_> {
    fn fmt<W: fmt::Write>(&self, f: &mut fmt::Formatter<W>) -> fmt::Result {
        let bytes = self.0;
        let [a, b, c, d, ..] = bytes else {
            return write!(f, "nothing");
        };
        if bytes.iter().all(|byte| byte == a) {
            return write!(f, "{a}");
        }
        if bytes.chunks_exact(4).all(|four| four == &bytes[..4]) {
            return write!(f, "{a}.{b}.{c}.{d}");
        }
        if bytes
            .iter()
            .enumerate()
            .all(|(i, byte)| usize::from(*byte) == i)
        {
            return write!(f, "0..63");
        }
        write!(f, "mixed")
    }
}

// Only create names a handle, and no handle is 0.
impl fmt::Display for Told {
    fn fmt<W: fmt::Write>(&self, f: &mut fmt::Formatter<W>) -> fmt::Result {
        match self.answer {
            Err(why) => write!(f, "refused with {}", why.number()),
            Ok(Ended::Done { steps, handle: 0 }) => write!(f, "done in {}", Count(steps, "step")),
            Ok(Ended::Done { steps, handle }) => {
                write!(f, "done in {} with handle {handle}", Count(steps, "step"))
            }
            Ok(Ended::Stopped(steps)) if steps == self.swept => write!(f, "stopped"),
            Ok(Ended::Stopped(steps)) => write!(f, "stopped after {}", Count(steps, "step")),
        }
    }
}

// The words after the last handle are 0.
impl fmt::Display for Live {
    fn fmt<W: fmt::Write>(&self, f: &mut fmt::Formatter<W>) -> fmt::Result {
        write!(f, "{}", Count(self.0.count as usize, "domain"))?;
        for handle in self.0.handles {
            if handle != 0 {
                write!(f, " {handle}")?;
            }
        }
        Ok(())
    }
}

// How many bytes the part has, what they are, and where they stand, or by which rule they are.
impl fmt::Display for Look<'_> {
    fn fmt<W: fmt::Write>(&self, f: &mut fmt::Formatter<W>) -> fmt::Result {
        let bytes = Bytes(self.part);
        write!(f, "{}", Count(self.part.len(), "byte"))?;
        match self.place {
            Err(why) => write!(f, ", refused with {}", why.number()),
            Ok(Place::Memory(at)) => write!(f, " of {bytes}, memory from byte {at}"),
            Ok(Place::Bodies(at)) => write!(f, " of {bytes}, bodies from byte {at}"),
            Ok(Place::Rule(rule)) => {
                write!(f, ", by rule {rule}")?;
                self.told_rule(f)
            }
        }
    }
}

impl Look<'_> {
    // What look answers where its place is a rule.
    fn told_rule<W: fmt::Write>(&self, f: &mut fmt::Formatter<W>) -> fmt::Result {
        match self.answer {
            Err(why) => write!(f, ", refused with {}", why.number()),
            Ok(LookAnswer::Bytes) => write!(f, ", answered with bytes"),
            Ok(LookAnswer::Rule(rule)) => write!(f, ", answered with rule {rule}"),
        }
    }
}
