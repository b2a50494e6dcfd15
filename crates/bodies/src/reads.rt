//! Reading a body.
ghost use Rattle.std.specs.Prelude.{◌≡◌, length};
ghost use Rattle.rules.specs.Outcome.{viewed};
ghost use Rattle.bodies.specs.Views.{Opens, bounded, listed};
ghost use Rattle.bodies.specs.Bodies.{absent as absent_of, fit_bounded, fit_entries, fit_one, missing as missing_of, spread as spread_of, unfit as unfit_of, fits as fits_of, size as entry_size};

use super::{Entries, Entry, Named, Shape};
use rules::limits::MOST_PLACES;
use rules::{Fault, need};

impl Named {
    /// What is told of a name that does not exist.
    pub fn absent(&self, number: usize) -> Fault
        ensures { result ≡ absent_of self.now number }
    {
        match self {
            Named::Place => Fault::MissingPlace { place: number },
            Named::Line => Fault::MissingLine { line: number },
            Named::Condition => Fault::MissingCondition { condition: number },
        }
    }
}

impl Shape {
    /// The bytes of an entry.
    fn size(&self) -> usize
        ensures value { result ≡ entry_size self.now }
    {
        match self {
            Shape::Names => 1,
            Shape::Weights | Shape::Multipliers => 3,
        }
    }

    /// Whether so many bytes are one entry or more, and no part of one.
    pub fn fits(&self, length: usize) -> bool
        ensures { result ≡ fits_of self.now length }
    {
        length > 0 && length % self.size() == 0
    }
}

/// Gives the entries from the first on.
impl<'a> Iterator for Entries<'a> {
    ghost use Rattle.std.specs.Iterator.{YieldsFirst, at_most};
    ghost use Rattle.bodies.specs.Views.{listed};

    type Item = Entry;

    ghost next_gives = { YieldsFirst listed };

    ghost remaining = { λ s. at_most (length s.bytes.now) };

    fn next(&mut self) -> Option<Entry> {
        let (name, number, rest) = match self.shape {
            Shape::Names => {
                let (name, rest) = self.bytes.split_first()?;
                (*name, 1, rest)
            }
            Shape::Weights => {
                let ([name, low, high], rest) = self.bytes.split_first_chunk::<3>()?;
                (*name, i64::from(i16::from_le_bytes([*low, *high])), rest)
            }
            Shape::Multipliers => {
                let ([name, low, high], rest) = self.bytes.split_first_chunk::<3>()?;
                (*name, i64::from(u16::from_le_bytes([*low, *high])), rest)
            }
        };
        self.bytes = rest;
        Some(Entry { name, number })
    }
}

impl<'a> Entries<'a> {
    /// The entries of a body of this shape, which name what stands below `end`.
    pub fn read(
        shape: Shape,
        named: Named,
        end: usize,
        bytes: &'a [u8],
    ) -> Result<Entries<'a>, Fault>
        ensures { viewed listed result ≡ fit_entries shape named end bytes.now }
    {
        need(
            shape.fits(bytes.len()),
            Fault::BodyLength {
                length: bytes.len(),
            },
        )?;
        let entries = Entries { shape, bytes };
        if let Some(name) = entries.missing(end) {
            return Err(named.absent(name));
        }
        if let Some(entry) = entries.unfit() {
            return Err(Fault::EntryUnfit { entry });
        }
        Ok(entries)
    }

    /// The first entry that is left, and the others.
    pub fn split_first(self) -> Option<(Entry, Entries<'a>)>
        ensures { Opens (listed self.entry) result }
    {
        let mut rest = self;
        let entry = rest.next()?;
        Some((entry, rest))
    }

    /// The first name that does not stand below `end`.
    fn missing(self, end: usize) -> Option<usize>
        ensures { result ≡ missing_of end (listed self.entry) }
    {
        self.map(|entry| usize::from(entry.name))
            .find(|name| *name >= end)
    }

    /// The first entry that does not rise over the last, or has the number 0.
    fn unfit(self) -> Option<usize>
        ensures { result ≡ unfit_of (listed self.entry) }
    {
        let mut least = 0;
        for (i, entry) in self.enumerate() {
            let name = usize::from(entry.name);
            if name < least || entry.number == 0 {
                return Some(i);
            }
            least = name + 1;
        }
        None
    }

    /// A number for each place that there can be, 0 where no entry names it.
    pub fn spread(self) -> [i64; MOST_PLACES]
        ensures { result ≡ spread_of (listed self.entry) }
    {
        let mut numbers = [0; MOST_PLACES];
        for entry in self {
            let place = usize::from(entry.name);
            // a write through `get_mut` leaves a proof without the other numbers
            if place < MOST_PLACES {
                numbers[place] = entry.number;
            }
        }
        numbers
    }
}

/// The bound and the entries of a body that has both; the entries have weights and name places below `places`.
pub fn read_bounded(places: usize, bytes: &[u8]) -> Result<(i64, Entries), Fault>
    ensures { viewed bounded result ≡ fit_bounded places bytes.now }
{
    let length = bytes.len();
    let Some((bound, weights)) = bytes.split_first_chunk::<4>() else {
        return Err(Fault::BodyLength { length });
    };
    need(
        Shape::Weights.fits(weights.len()),
        Fault::BodyLength { length },
    )?;
    let entries = Entries::read(Shape::Weights, Named::Place, places, weights)?;
    Ok((i64::from(i32::from_le_bytes(*bound)), entries))
}

/// The one name of a body that has nothing else, below `end`.
pub fn read_one(named: Named, end: usize, bytes: &[u8]) -> Result<usize, Fault>
    ensures { result ≡ fit_one named end bytes.now }
{
    let [name] = bytes else {
        return Err(Fault::BodyLength {
            length: bytes.len(),
        });
    };
    let name = usize::from(*name);
    need(name < end, named.absent(name))?;
    Ok(name)
}
