// The alignment of a profile: its pegs in force, or why it is not ready.
ghost use Rattle.std.specs.Prelude.{◌≡◌, ◌+◌, ◌-◌, ◌<◌, ◌≤◌, [], ◌++◌, length, take, Some, Decides, MatchOption, MatchResult};
ghost use Rattle.pegs.specs.declared.peg.FixedLevel.{FixedLevel};
ghost use Rattle.fitting.specs.Line.{OnRoad, Rising};
ghost use Rattle.fitting.specs.Ready.{FixedOn, IsNotReady, NotRisingAt, OffRoadAt, Ready, SoundAlignment, in_force, not_ready_number, then_standing};

use crate::alignment::{Alignment, InRange, Standing};
use crate::grade_line::GradeLine;
use pegs::peg::{FixedLevel, Peg};
use pegs::slot::Slot;
use rules::point::Point;
use rules::refusal::Refusal;
use std::fmt;

// A peg or fixed level at fault is told by its number: the peg from which the station doesn't rise.
#[derive(Clone, Copy)]
pub enum NotReady {
    TooFewPegs,
    StationsNotRising { peg: u32 },
    FixedLevelOff { number: u32 },
}

impl NotReady {
    // The number by which the refusal is told.
    pub fn number(self) -> u8
        ensures { result ≡ not_ready_number self }
    {
        match self {
            NotReady::TooFewPegs => 22,
            NotReady::StationsNotRising { .. } => Refusal::StationsNotRising.number(),
            NotReady::FixedLevelOff { .. } => 24,
        }
    }
}

impl fmt::Display for NotReady {
    fn fmt<W: fmt::Write>(&self, f: &mut fmt::Formatter<W>) -> fmt::Result {
        match *self {
            NotReady::TooFewPegs => f.write_str("fewer than two pegs are in force"),
            NotReady::StationsNotRising { peg } => write!(
                f,
                "the peg after peg {peg} stands less than 10 m further on"
            ),
            NotReady::FixedLevelOff { number } => write!(
                f,
                "fixed level {number} lies before the first peg or beyond the last"
            ),
        }
    }
}

// Writes a peg, if there is one, at a place, and tells the place after it.
fn add(number: u32, held: Option<Peg>, pegs: &mut [Standing], at: usize) -> usize
    requires { at < length pegs.old }
    ensures line { take result pegs.new ≡ take at pegs.old ++ then_standing number held [] }
    ensures most { (at ≤ result) × ((result ≤ at + 1) × (length pegs.new ≡ length pegs.old)) }
{
    match held {
        Some(peg) => {
            pegs[at] = Standing {
                number,
                point: Point {
                    station: peg.station,
                    level: peg.level,
                },
            };
            at + 1
        }
        None => at,
    }
}

// Writes the pegs that slots hold at the front of `pegs`, in the order of their numbers, and tells how many.
// stays: they are gathered in the room of an alignment, since there is no heap
fn collect(slots: &[Slot<Peg>], pegs: &mut [Standing]) -> usize
    requires slots { length slots.now ≡ 40 }
    requires room { length pegs.old ≡ 40 }
    ensures line { take result pegs.new ≡ in_force slots.now }
    ensures most { (result ≤ 40) × (length pegs.new ≡ 40) }
{
    let mut count = 0;
    for (n, slot) in slots.iter().enumerate() {
        count = add(n as u32, slot.held, pegs, count);
    }
    count
}

// Metres from one peg to another, and 0 where that one stands no further on.
fn metres_on(from: &Standing, to: &Standing) -> u32
    ensures { result ≡ to.now.point.station - from.now.point.station }
{
    to.point.station.saturating_sub(from.point.station)
}

// The first peg from which the station doesn't rise by 10 m.
fn first_not_rising(pegs: &[Standing]) -> Option<usize>
    requires { 2 ≤ length pegs.now }
    ensures { MatchOption result (Rising pegs.now) (λ i. NotRisingAt pegs.now i) }
{
    pegs.iter()
        .zip(&pegs[1..])
        .position(|(from, to)| metres_on(from, to) < 10)
}

// Whether a fixed level, if there is one, lies between two stations.
fn lies_between(held: Option<FixedLevel>, first: u32, last: u32) -> bool
    ensures { Decides result ((f : FixedLevel) → held ≡ Some f → (first ≤ f.station) × (f.station ≤ last)) }
{
    held.is_none_or(|level| first <= level.station && level.station <= last)
}

// The first fixed level that lies off the road.
fn first_off(pegs: &[Standing], fixed: &[Slot<FixedLevel>]) -> Option<usize>
    requires many { 2 ≤ length pegs.now }
    requires sixteen { length fixed.now ≡ 16 }
    ensures { MatchOption result (FixedOn pegs.now fixed.now) (λ n. (n ≤ 15) × OffRoadAt pegs.now fixed.now n) }
{
    let first = pegs[0].point.station;
    let last = pegs[pegs.len() - 1].point.station;
    fixed
        .iter()
        .position(|slot| !lies_between(slot.held, first, last))
}

// Whether pegs and fixed levels are ready, or the first reason against it.
fn check(pegs: &[Standing], fixed: &[Slot<FixedLevel>]) -> Result<(), NotReady>
    requires { length fixed.now ≡ 16 }
    ensures { MatchResult result (λ _. Ready pegs.now fixed.now) (λ e. IsNotReady pegs.now fixed.now e) }
{
    if pegs.len() < 2 {
        return Err(NotReady::TooFewPegs);
    }
    if let Some(i) = first_not_rising(pegs) {
        return Err(NotReady::StationsNotRising {
            peg: pegs[i].number,
        });
    }
    if let Some(n) = first_off(pegs, fixed) {
        return Err(NotReady::FixedLevelOff { number: n as u32 });
    }
    Ok(())
}

impl Alignment {
    // The pegs in force and the fixed levels, or the first reason why they are not ready.
    pub fn ready(from: &InRange) -> Result<Alignment, NotReady>
        ensures { MatchResult result (λ a. Ready (in_force from.now.tables.pegs) from.now.tables.fixed × (take a.count a.pegs ≡ in_force from.now.tables.pegs) × (a.fixed ≡ from.now.tables.fixed)) (λ e. IsNotReady (in_force from.now.tables.pegs) from.now.tables.fixed e) }
    {
        let fixed = from.tables.fixed;
        let mut pegs = [Standing {
            number: 0,
            point: Point {
                station: 0,
                level: 0,
            },
        }; 40];
        let count = collect(&from.tables.pegs, &mut pegs);
        check(&pegs[..count], &fixed)?;
        Ok(Alignment { pegs, count, fixed })
    }

    // The pegs in force.
    pub fn line(&self) -> &[Standing]
        ensures line { result.now ≡ take self.now.count self.now.pegs }
        ensures sound { SoundAlignment result.now self.now.fixed }
    {
        &self.pegs[..self.count]
    }

    // The same, with the fixed levels on it.
    pub(crate) fn grade_line(&self) -> GradeLine<'_>
        ensures { (result.pegs.now ≡ take self.now.count self.now.pegs) × (result.fixed.now ≡ self.now.fixed) }
    {
        GradeLine {
            pegs: self.line(),
            fixed: &self.fixed,
        }
    }
}
