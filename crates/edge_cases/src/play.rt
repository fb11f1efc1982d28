// The player of the acts: it performs them on the buffers, and prints what they give.
use crate::acts::{Act, Cells, EDGE, Kind, Label, Lengths, Shape};
use crate::buffers::{Buffers, Snapshot, is_prefix, likeness};
use crate::told::{Live, Told};
use arrayvec::ArrayString;
use std::fmt;
use std::fmt::Write;
use store::answers::Answer;

// A budget that suffices for every call at every length.
const ENOUGH: usize = 1000000;

// A line of what is printed: the longest has some 1,600 bytes.
type Line = ArrayString<4096>;

// An act stands in a line of its own, or first in a line with others, or after others in a line.
#[derive(Clone, Copy, PartialEq, Eq, Debug)]
enum Style {
    Lines,
    FirstOfLine,
    InLine,
}

// The store that is played, the one that was kept and the one that the whole call left; the shape of the store and what is lent of it; the next
// call's budget, and a sweep's; and the line that is being printed.
#[derive(Drop)]
pub struct Player {
    now: Buffers,
    kept: Snapshot,
    left: Snapshot,
    shape: Shape,
    lent: Lengths,
    budget: usize,
    swept: usize,
    style: Style,
    line: Line,
}

impl Player {
    pub fn new() -> Player {
        let now = Buffers::new();
        let none = now.snapshot();
        Player {
            now,
            kept: none,
            left: none,
            shape: EDGE,
            lent: EDGE.lengths(),
            budget: ENOUGH,
            swept: ENOUGH,
            style: Style::Lines,
            line: Line::new(),
        }
    }

    pub fn play(&mut self, acts: &[Act]) -> fmt::Result {
        for act in acts {
            match *act {
                Act::Sweep(last, swept) => self.sweep(last, swept)?,
                act => self.perform(act)?,
            }
        }
        self.end_line()
    }

    fn perform(&mut self, act: Act) -> fmt::Result {
        match act {
            Act::Fresh(shape) => self.fresh(shape),
            Act::Keep => self.kept = self.now.snapshot(),
            Act::Whole => self.left = self.now.snapshot(),
            Act::Back => self.back(),
            Act::After => self.after(),
            Act::Cut(steps) => self.budget = steps,
            Act::CutBySweep => self.budget = self.swept,
            _ => return self.print(act),
        }
        Ok(())
    }

    fn print(&mut self, act: Act) -> fmt::Result {
        match act {
            Act::Text(text) => self.text(text),
            Act::Case(text) => self.case(text),
            Act::Harm(text, word, value) => {
                self.case(text)?;
                self.tell(Act::Set(word, value))?;
                self.tell(Act::Probe)
            }
            Act::Lend(memory, bodies, words) => {
                self.lend(Lengths {
                    memory,
                    bodies,
                    words,
                })?;
                self.tell(Act::Make)?;
                self.tell(Act::List)
            }
            _ => self.tell(act),
        }
    }

    // ---- stores. One that is made or comes back is lent whole

    fn fresh(&mut self, shape: Shape) {
        self.shape = shape;
        self.lent = shape.lengths();
        self.now.fill(shape);
        self.now.lent(self.lent).call(Act::Make, ENOUGH);
    }

    fn back(&mut self) {
        self.lent = self.shape.lengths();
        self.now.bring_back(&self.kept);
    }

    fn after(&mut self) {
        self.lent = self.shape.lengths();
        self.now.bring_back(&self.left);
    }

    // ---- lines

    // stays: the kit's `io` writes, since std's `print!` rests on the C library's errno too, an axiom more.
    fn flush(&mut self) {
        io::write_all(1, self.line.as_str().as_bytes());
        self.line.clear();
    }

    // Ends the line in which several acts stand, if there is one.
    fn end_line(&mut self) -> fmt::Result {
        if self.style == Style::Lines {
            return Ok(());
        }
        self.style = Style::Lines;
        writeln!(self.line, ".")?;
        self.flush();
        Ok(())
    }

    fn text(&mut self, text: &str) -> fmt::Result {
        self.end_line()?;
        writeln!(self.line, "{text}")?;
        self.flush();
        Ok(())
    }

    fn case(&mut self, text: &str) -> fmt::Result {
        self.end_line()?;
        self.back();
        self.style = Style::FirstOfLine;
        write!(self.line, "{text}")
    }

    fn lend(&mut self, lengths: Lengths) -> fmt::Result {
        self.end_line()?;
        self.lent = lengths;
        self.style = Style::FirstOfLine;
        write!(self.line, "Lent {lengths}")
    }

    // ---- what is told

    fn tell(&mut self, act: Act) -> fmt::Result {
        self.begin()?;
        self.give(act)?;
        self.budget = ENOUGH;
        if self.style == Style::Lines {
            writeln!(self.line, ".")?;
            self.flush();
            return Ok(());
        }
        self.style = Style::InLine;
        Ok(())
    }

    fn begin(&mut self) -> fmt::Result {
        match self.style {
            Style::Lines => write!(self.line, "  "),
            Style::FirstOfLine => write!(self.line, ": "),
            Style::InLine => write!(self.line, "; "),
        }
    }

    fn give(&mut self, act: Act) -> fmt::Result {
        match act {
            Act::Write(cell, byte) => self.now.write(cell, [byte; 4]),
            Act::Repeat(cell, bytes) => self.now.write(cell, bytes),
            Act::Rise(cell) => self.now.rise(cell),
            Act::Byte(cell, place, byte) => self.now.write_byte(cell, place, byte),
            Act::Set(word, value) => self.now.set_word(word, value),
            Act::List => return self.tell_list(),
            Act::Look(handle, cell) => return self.tell_look(handle, cell),
            Act::State => return self.tell_state(),
            Act::Same | Act::PutBack(_) | Act::Stored(_) => return self.compare(act),
            Act::Probe => return self.probe(),
            _ => return self.call(act),
        }
        write!(self.line, "{act}")
    }

    fn tell_list(&mut self) -> fmt::Result {
        match self.now.seen(self.lent).list() {
            Ok(listing) => write!(self.line, "{}", Live(listing)),
            Err(why) => write!(self.line, "list refused with {}", why.number()),
        }
    }

    fn tell_look(&mut self, handle: u32, cell: u32) -> fmt::Result {
        let act = Act::Look(handle, cell);
        let look = self.now.seen(self.lent).look(handle, cell);
        write!(self.line, "{act}: {look}")
    }

    fn tell_state(&mut self) -> fmt::Result {
        let seen = self.now.seen(self.lent);
        write!(self.line, "{seen}")
    }

    fn compare(&mut self, act: Act) -> fmt::Result {
        let now = self.now.snapshot();
        let kept = &self.kept;
        let left = &self.left;
        let steps = self.swept;
        match act {
            Act::PutBack(most) => {
                let holds = is_prefix(&now.memory, &left.memory, &kept.memory, steps.min(most));
                self.tell_prefix(holds, "put back")
            }
            Act::Stored(most) => {
                let holds = is_prefix(&now.bodies, &left.bodies, &kept.bodies, steps.min(most));
                self.tell_prefix(holds, "copied")
            }
            _ => {
                let words = self.shape.lengths().words;
                write!(self.line, "{}", likeness(&now, kept, left, words))
            }
        }
    }

    fn tell_prefix(&mut self, holds: bool, done: &str) -> fmt::Result {
        if holds {
            return write!(self.line, "as many bytes {done} as steps");
        }
        write!(self.line, "bytes astray")
    }

    // ---- calls

    // In a line of its own a call is told whether it changed anything, and nine calls always are. Only for that the store is copied before it.
    fn call(&mut self, act: Act) -> fmt::Result {
        let before = self.now.snapshot();
        let answer = self.now.lent(self.lent).call(act, self.budget);
        if let Some(answer) = answer {
            let told = Told {
                answer,
                swept: self.swept,
            };
            write!(self.line, "{act}: {told}")?;
        }
        if self.style == Style::Lines {
            return self.tell_unchanged(&before);
        }
        Ok(())
    }

    // An answer stands before the calls that give it.
    fn probe(&mut self) -> fmt::Result {
        let before = self.now.snapshot();
        let mut last = None;
        write!(self.line, "nine calls")?;
        for act in PROBES {
            if let Some(answer) = self.now.lent(self.lent).call(act, ENOUGH) {
                self.tell_probe(last, answer, act)?;
                last = Some(answer);
            }
        }
        self.tell_unchanged(&before)
    }

    fn tell_probe(&mut self, last: Option<Answer>, answer: Answer, act: Act) -> fmt::Result {
        let name = act.name();
        if last == Some(answer) {
            return write!(self.line, ", {name}");
        }
        let told = Told {
            answer,
            swept: self.swept,
        };
        write!(self.line, "; {told}: {name}")
    }

    // Is every byte and word of the store as it was before the call?
    fn tell_unchanged(&mut self, before: &Snapshot) -> fmt::Result {
        if self.now.snapshot() == *before {
            return write!(self.line, "; nothing changed");
        }
        Ok(())
    }

    // ---- sweeps

    // What a budget gives is written if it is not what the budget before it gave.
    fn sweep(&mut self, last: usize, acts: &[Act]) -> fmt::Result {
        self.end_line()?;
        let mut before = Line::new();
        for budget in 0..=last {
            self.at_budget(budget, acts)?;
            if self.line != before {
                before = self.line;
                self.line.clear();
                write!(self.line, "  From budget {budget}{before}.\n")?;
                self.flush();
            }
            self.line.clear();
        }
        self.swept = ENOUGH;
        self.style = Style::Lines;
        Ok(())
    }

    // The acts at one budget, from the store that was kept.
    fn at_budget(&mut self, budget: usize, acts: &[Act]) -> fmt::Result {
        self.back();
        self.style = Style::FirstOfLine;
        self.budget = budget;
        self.swept = budget;
        for act in acts {
            self.perform(*act)?;
        }
        Ok(())
    }
}

const PROBES: [Act; 9] = [
    Act::List,
    Act::Look(0, 0),
    Act::Open,
    Act::Create,
    Act::Add(0, Cells(0, 1), Kind::Copied, Label::ReadOnly),
    Act::Delete(0, Cells(0, 1)),
    Act::Advance(0),
    Act::Commit(0),
    Act::Restore(0),
];
