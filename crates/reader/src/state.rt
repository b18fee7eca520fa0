// The reader's state, a struct by value: what judging the next line needs. A method takes self and one line and hands back the next state.
ghost use Rattle.std.specs.Prelude.{◌≡◌, None};
ghost use Rattle.hexlines.specs.Lines.{bytes_of};
ghost use Rattle.frames.specs.Progress.{nothing};
ghost use Rattle.frames.specs.Views.{number_of};
ghost use Rattle.frames.specs.Kinds.{of_entity, of_cap, of_floor, of_filter, of_row};
ghost use Rattle.reader.specs.States.{reading, step};
ghost use Rattle.reader.specs.Views.{Ready, Reads, IsNext, Moves, Refuses, Takes, TakesLine};

use frames::refusals::{Reason, Refusal};
use frames::widths::ADDRESS;
use frames::{cap, entity, filter, floor, refusals, row};
use policy::limits::{ENTITIES, NO_PARENT, TECHNOLOGIES};
use policy::row::Coefficients;
use policy::table;
use policy::table::{Caps, PerEntity};

// As it is: arrays with their counts, as the table's, which they become.
// Of a table so far: its entities, caps and floor, and how many filters and rows there are, but not what they say.
#[derive(Drop)]
pub struct State {
    pub entities: usize,
    pub parents: PerEntity,
    pub layers: PerEntity,
    pub masks: PerEntity,
    pub capped: usize,
    pub caps: Caps,
    pub floor: Coefficients,
    // whether the floor has been read
    pub floored: bool,
    pub filters: usize,
    pub rows: usize,
    // why and at which line the text is refused, once it is
    pub refusal: Option<Refusal>,
}

impl State {
    // Nothing has been read.
    pub fn new() -> State
        ensures { Ready result × Reads result (reading 0 nothing) }
    {
        let zero = Coefficients {
            header: 0,
            payload: 0,
            confidentiality: 0,
        };
        State {
            entities: 0,
            parents: [NO_PARENT; ENTITIES],
            layers: [0; ENTITIES],
            masks: [0; ENTITIES],
            capped: 0,
            caps: [zero; TECHNOLOGIES],
            floor: zero,
            floored: false,
            filters: 0,
            rows: 0,
            refusal: None,
        }
    }

    // The refusal by this number at the line after those that have been read.
    pub fn refusal_by(&self, number: u8) -> Refusal
        requires { Ready self.now }
        ensures { IsNext self.now number result }
    {
        let floored = u8::from(self.floored);
        let before = table::lines_before(self.entities, self.capped, floored, self.filters);
        let line = before + self.rows + 1;
        Refusal {
            number,
            line: line as u8,
        }
    }

    // Refused by this number at the line after those that have been read.
    pub fn refuse(mut self, number: u8) -> State
        requires { Ready self × (number ≡ 0 → ⊥) }
        ensures { Refuses self number result }
    {
        self.refusal = Some(self.refusal_by(number));
        self
    }

    // An entity's line, after its kind byte: its value is taken, or nothing changes.
    // As it is: a function for each kind and no trait, since each asks for other counts and stores its value elsewhere: its impl would be as long.
    fn take_entity(&mut self, part: &[u8]) -> Result<(), Reason>
        requires { Ready self.old }
        ensures { Takes self.old of_entity (bytes_of part.now) result self.new }
    {
        refusals::misfit(
            entity::has_length(part),
            entity::has_place(self.capped, self.entities),
        )?;
        let k = self.entities;
        let e = entity::read(part);
        entity::broken(&self.layers[..k], e)?;
        self.parents[k] = e.parent;
        self.layers[k] = e.layer;
        self.masks[k] = e.mask;
        self.entities = k + 1;
        Ok(())
    }

    // A cap's line, after its kind byte: its value is taken, or nothing changes.
    fn take_cap(&mut self, part: &[u8]) -> Result<(), Reason>
        requires { Ready self.old }
        ensures { Takes self.old of_cap (bytes_of part.now) result self.new }
    {
        refusals::misfit(
            cap::has_length(part),
            cap::has_place(self.entities, self.capped, cap::technology(part)),
        )?;
        let k = self.capped;
        self.caps[k] = cap::read(part);
        self.capped = k + 1;
        Ok(())
    }

    // The floor's line, after its kind byte: its value is taken, or nothing changes.
    fn take_floor(&mut self, part: &[u8]) -> Result<(), Reason>
        requires { Ready self.old }
        ensures { Takes self.old of_floor (bytes_of part.now) result self.new }
    {
        refusals::misfit(
            floor::has_length(part),
            floor::has_place(self.capped, u8::from(self.floored)),
        )?;
        self.floor = floor::read(part);
        self.floored = true;
        Ok(())
    }

    // A filter's line, after its kind byte: one filter more is counted, or nothing changes.
    fn take_filter(&mut self, part: &[u8]) -> Result<(), Reason>
        requires { Ready self.old }
        ensures { Takes self.old of_filter (bytes_of part.now) result self.new }
    {
        refusals::misfit(
            filter::has_length(part),
            filter::has_place(u8::from(self.floored), self.rows, self.filters),
        )?;
        filter::broken(&self.parents[..self.entities], filter::read(part))?;
        self.filters += 1;
        Ok(())
    }

    // A row's line, after its kind byte: one row more is counted, or nothing changes.
    fn take_row(&mut self, part: &[u8]) -> Result<(), Reason>
        requires { Ready self.old }
        ensures { Takes self.old of_row (bytes_of part.now) result self.new }
    {
        refusals::misfit(
            row::has_length(part, ADDRESS),
            row::has_place(u8::from(self.floored), self.rows),
        )?;
        row::broken(&self.parents[..self.entities], row::read(part, ADDRESS))?;
        self.rows += 1;
        Ok(())
    }

    // A line: what it says is taken, or nothing changes. The first byte chooses the frame's own reader, which is given the rest of the line.
    fn take(&mut self, line: &[u8]) -> Result<(), Reason>
        requires { Ready self.old }
        ensures { TakesLine self.old line.now result self.new }
    {
        refusals::keep(hexlines::is_line(line), Reason::NoLine)?;
        let rest = &line[2..];
        match hexlines::u8_at(line, 0) {
            1 => self.take_entity(rest),
            2 => self.take_cap(rest),
            3 => self.take_floor(rest),
            4 => self.take_filter(rest),
            5 => self.take_row(rest),
            _ => Err(Reason::WrongForm),
        }
    }

    // One line, without its line feed. A state that is refused stays so.
    pub fn next(mut self, line: &[u8]) -> State
        requires { Ready self }
        ensures { Moves self (λ s. step s line.now) result }
    {
        if self.refusal.is_some() {
            return self;
        }
        match self.take(line) {
            Ok(()) => self,
            Err(reason) => self.refuse(reason.number()),
        }
    }
}
