// The road code of the Indian standard.
ghost use Rattle.std.specs.Prelude.{◌≡◌, ◌≤◌, MatchResult};
ghost use Rattle.rules.specs.Irc.{ClauseOf, IrcRefused, OvertakingGiven, clause_number, grade_within, irc_curve, irc_grade, gradient_limit, seen, sight_rule};
ghost use Rattle.rules.specs.Laws.{LongerStillPasses};
ghost use Rattle.rules.specs.Roads.{Named};
ghost use Rattle.rules.specs.Speeds.{asked as asked_at, design_speed};
ghost use Rattle.rules.specs.Turns.{base as base_of, change as change_of};

use crate::clause::ClauseNumber;
use crate::code::RoadCode;
use crate::grade::Grade;
use crate::length::Length;
use crate::refusal::Refusal;
use crate::road::{Road, RoadFigures, Sight};
use crate::speeds::{Asked, asked_of};
use crate::turn::{Kind, Turn};
use std::fmt;

// What the standard refuses a grade or a curve by.
#[derive(Clone, Copy)]
pub enum Clause {
    Gradient,
    LeastLength,
    StoppingSight,
    IntermediateSight,
    OvertakingSight,
    ValleySight,
}

impl Clause {
    pub fn number(self) -> u8
        ensures { result ≡ clause_number self }
    {
        match self {
            Clause::Gradient => 1,
            Clause::LeastLength => 2,
            Clause::StoppingSight => 3,
            Clause::IntermediateSight => 4,
            Clause::OvertakingSight => 5,
            Clause::ValleySight => 6,
        }
    }
}

impl From<Clause> for ClauseNumber {
    ghost from_gives = { λ clause told. told.number ≡ clause_number clause };

    fn from(clause: Clause) -> ClauseNumber {
        ClauseNumber {
            number: clause.number(),
        }
    }
}

// A number that tells no clause.
#[derive(Clone, Copy)]
pub struct UnknownClause(pub u8);

impl TryFrom<u8> for Clause {
    type Error = UnknownClause;

    ghost try_from_gives = { ClauseOf };

    fn try_from(number: u8) -> Result<Self, UnknownClause> {
        match number {
            1 => Ok(Clause::Gradient),
            2 => Ok(Clause::LeastLength),
            3 => Ok(Clause::StoppingSight),
            4 => Ok(Clause::IntermediateSight),
            5 => Ok(Clause::OvertakingSight),
            6 => Ok(Clause::ValleySight),
            _ => Err(UnknownClause(number)),
        }
    }
}

impl fmt::Display for Clause {
    fn fmt<W: fmt::Write>(&self, f: &mut fmt::Formatter<W>) -> fmt::Result {
        f.write_str(match self {
            Clause::Gradient => "the grade is too steep",
            Clause::LeastLength => "the curve is under the least length",
            Clause::StoppingSight => "the summit is too short for stopping sight",
            Clause::IntermediateSight => "the summit is too short for intermediate sight",
            Clause::OvertakingSight => "the summit is too short for overtaking sight",
            Clause::ValleySight => "the valley is too short for headlight sight",
        })
    }
}

// The steepest grade allowed: 1 in n, or so many thousandths.
#[derive(Clone, Copy)]
pub enum GradientLimit {
    OneIn(u32),
    PerThousand(u32),
}

use GradientLimit::{OneIn, PerThousand};

// Ruling, limiting and exceptional gradient, by terrain.
const GRADIENTS: [[GradientLimit; 3]; 4] = [
    [OneIn(30), OneIn(20), OneIn(15)],
    [OneIn(30), OneIn(20), OneIn(15)],
    [PerThousand(50), PerThousand(60), PerThousand(70)],
    [PerThousand(60), PerThousand(70), PerThousand(80)],
];

fn limit_for(road: Road) -> GradientLimit
    ensures { result ≡ gradient_limit road }
{
    GRADIENTS[road.terrain as usize][road.gradient as usize]
}

impl GradientLimit {
    fn allows(self, grade: Grade) -> bool
        ensures { result ≡ grade_within self grade.rise grade.run }
    {
        let rise = grade.rise.unsigned_abs();
        let run = grade.run as u64;
        match self {
            OneIn(n) => rise * n as u64 <= 1000 * run,
            PerThousand(p) => rise <= p as u64 * run,
        }
    }
}

// How far must be seen, the figure Q of that distance, and the clause that asks it.
#[derive(Clone, Copy)]
pub struct SightRule {
    pub distance: u32,
    pub q: u32,
    pub clause: Clause,
}

fn rule_for(road: Road, kind: Kind) -> SightRule
    ensures value { result ≡ sight_rule road kind }
    ensures small { (result.distance ≤ 640) × (result.q ≤ 9600) }
{
    let asked = asked_of(road);
    match kind {
        Kind::Summit => match road.sight {
            Sight::Stopping => SightRule {
                distance: asked.stopping,
                q: 4400,
                clause: Clause::StoppingSight,
            },
            Sight::Intermediate => SightRule {
                distance: 2 * asked.stopping,
                q: 9600,
                clause: Clause::IntermediateSight,
            },
            // stays: 0 where the speed gives no distance, as the rule's definition has it; no Irc has overtaking sight there
            Sight::Overtaking => SightRule {
                distance: asked.overtaking.unwrap_or(0),
                q: 9600,
                clause: Clause::OvertakingSight,
            },
        },
        Kind::Valley => SightRule {
            distance: asked.stopping,
            q: 1500 + 35 * asked.stopping,
            clause: Clause::ValleySight,
        },
    }
}

impl SightRule {
    // Whether a curve of this length lets the distance be seen.
    fn sees(self, turn: Turn, at: Length) -> bool
        requires { (self.distance ≤ 640) × (self.q ≤ 9600) }
        ensures { result ≡ seen self.distance self.q (change_of turn.bend) (base_of turn.bend) at.metres }
    {
        let s = self.distance as u64;
        let length = at.metres as u64;
        let reach = self.q as u64 * turn.base();
        if length >= s {
            turn.change() * (s * s) <= length * reach
        } else {
            (2 * s - length) * turn.change() <= reach
        }
    }
}

// The code of one road. Overtaking sight is held only by a road fast enough to have it.
#[derive(Clone, Copy)]
pub struct Irc {
    pub road: Road,
    ghost overtaking: { OvertakingGiven road },
}

impl Irc {
    // The code of the road with these figures, or the first reason against it.
    pub fn new(figures: RoadFigures) -> Result<Irc, Refusal>
        ensures { MatchResult result (λ code. Named figures code.road) (λ e. IrcRefused figures e) }
    {
        let road = Road::try_from(figures)?;
        if matches!(road.sight, Sight::Overtaking) && asked_of(road).kmh < 40 {
            return Err(Refusal::OvertakingTooSlow);
        }
        Ok(Irc { road })
    }

    // What the standard asks at the road's design speed.
    pub fn asked(&self) -> Asked
        ensures { result ≡ asked_at (design_speed self.now.road) }
    {
        asked_of(self.road)
    }

    // A law for callers: a curve that passes at some length passes at every longer one.
    pub fn longer_still_passes(&self)
        ensures { LongerStillPasses (irc_curve self.now.road) }
    {}
}

impl RoadCode for Irc {
    ghost grade_verdict = { λ c. irc_grade c.road };

    ghost curve_verdict = { λ c. irc_curve c.road };

    fn grade(&self, grade: Grade) -> Result<(), ClauseNumber> {
        if limit_for(self.road).allows(grade) {
            Ok(())
        } else {
            Err(Clause::Gradient.into())
        }
    }

    // Free change first, then the least length, then the rule of sight.
    fn curve(&self, turn: Turn, at: Length) -> Result<(), ClauseNumber> {
        let asked = asked_of(self.road);
        if turn.change() <= asked.free_change as u64 * turn.base() {
            return Ok(());
        }
        if at.metres < asked.least_length {
            return Err(Clause::LeastLength.into());
        }
        let rule = rule_for(self.road, turn.kind());
        if rule.sees(turn, at) {
            Ok(())
        } else {
            Err(rule.clause.into())
        }
    }
}
