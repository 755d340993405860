// Exact levels on a stretch of road, in whole numbers.
ghost use Rattle.std.specs.Prelude.{◌≡◌, ◌+◌, ◌*◌, ◌<◌, ◌≤◌, Decides};
ghost use Rattle.rules.specs.Points.{run};
ghost use Rattle.fitting.specs.Levels.{AtLeast, AtMost, Nearest, level_at};
ghost use Rattle.fitting.specs.Stretches.{Inside, Lengths, Room, Sound, Stands};

use pegs::peg::FixedLevel;
use rules::point::Point;

// From one peg to the next, with the pegs on both sides.
#[derive(Clone, Copy)]
pub struct Stretch {
    pub before: Point,
    pub from: Point,
    pub to: Point,
    pub after: Point,
}

// (up - down) / den
#[derive(Clone, Copy)]
pub struct Exact {
    pub up: u64,
    pub down: u64,
    pub den: u64,
}

// What a turn's three levels give its curve: up - down.
#[derive(Clone, Copy)]
pub struct Pull {
    pub up: u64,
    pub down: u64,
}

// The pull of the turn at q, between p and r.
fn pull_of(p: Point, q: Point, r: Point) -> Pull
    requires stations { (p.station ≤ q.station) × ((q.station ≤ r.station) × (r.station ≤ 10000)) }
    requires levels { (p.level ≤ 9000000) × ((q.level ≤ 9000000) × (r.level ≤ 9000000)) }
    ensures up { (result.up ≡ r.level * run p q + p.level * run q r) × (result.up ≤ 180000000000) }
    ensures down { (result.down ≡ q.level * (run p q + run q r)) × (result.down ≤ 180000000000) }
{
    let run_in = (q.station - p.station) as u64;
    let run_out = (r.station - q.station) as u64;
    Pull {
        up: r.level as u64 * run_in + p.level as u64 * run_out,
        down: q.level as u64 * (run_in + run_out),
    }
}

// The grade line's on / gap, and what a curve adds that reaches past the station; `other` is the run beyond its peg.
fn curved(on: u64, gap: u64, other: u64, metres: u64, past: u64, pull: Pull) -> Exact
    requires grade { (on ≤ 9000000 * gap) × (gap ≤ 10000) }
    requires curve { (other ≤ 10000) × ((metres ≤ 2000) × (past ≤ metres)) }
    requires pull { (pull.up ≤ 180000000000) × (pull.down ≤ 180000000000) }
    ensures up { result.up ≡ 8 * metres * other * on + pull.up * (past * past) }
    ensures down { result.down ≡ pull.down * (past * past) }
    ensures den { result.den ≡ 8 * metres * other * gap }
    ensures small { (result.down ≤ 720000000000000000) × (result.den ≤ 1600000000000) }
{
    let scale = 8 * metres * other;
    let square = past * past;
    Exact {
        up: scale * on + pull.up * square,
        down: pull.down * square,
        den: scale * gap,
    }
}

// A stretch, and the lengths of the curves at its two ends.
#[derive(Clone, Copy)]
pub(crate) struct Course {
    pub stretch: Stretch,
    pub left: u32,
    pub right: u32,
    ghost sound: { Sound stretch },
    ghost lengths: { Lengths stretch left right },
}

impl Course {
    // The level at the station s.
    fn exact_at(self, s: u32) -> Exact
        requires { Inside self.stretch s }
        ensures stands { Stands (level_at self.stretch self.left self.right s) result }
        ensures between { Room self.stretch self.left self.right → (result.down ≤ result.up) × (result.up ≤ 9000000 * result.den + result.down) }
        ensures small { (result.down ≤ 720000000000000000) × (result.den ≤ 1600000000000) }
    {
        let t = self.stretch;
        let gap = (t.to.station - t.from.station) as u64;
        let along = (s - t.from.station) as u64;
        let rest = (t.to.station - s) as u64;
        let on = t.from.level as u64 * rest + t.to.level as u64 * along;
        let l = self.left as u64;
        let r = self.right as u64;
        if 2 * along < l {
            let other = (t.from.station - t.before.station) as u64;
            let pull = pull_of(t.before, t.from, t.to);
            return curved(on, gap, other, l, l - 2 * along, pull);
        }
        if 2 * rest < r {
            let other = (t.after.station - t.to.station) as u64;
            let pull = pull_of(t.from, t.to, t.after);
            return curved(on, gap, other, r, r - 2 * rest, pull);
        }
        Exact {
            up: on,
            down: 0,
            den: gap,
        }
    }

    // Whether the level at a fixed level's station is from its low to its high.
    pub(crate) fn keeps(self, fixed: FixedLevel) -> bool
        requires { (Inside self.stretch fixed.station) × ((fixed.low ≤ 9000000) × (fixed.high ≤ 9000000)) }
        ensures { Decides result (AtLeast fixed.low (level_at self.stretch self.left self.right fixed.station) × AtMost fixed.high (level_at self.stretch self.left self.right fixed.station)) }
    {
        let e = self.exact_at(fixed.station);
        let low = fixed.low as u64 * e.den + e.down;
        let high = fixed.high as u64 * e.den + e.down;
        low <= e.up && e.up <= high
    }

    // The level to the nearest millimetre, a half going up.
    pub(crate) fn nearest_level(self, s: u32) -> u32
        requires room { Room self.stretch self.left self.right }
        requires inside { Inside self.stretch s }
        ensures nearest { Nearest (level_at self.stretch self.left self.right s) result }
        ensures most { result ≤ 9000000 }
        ensures range { (AtLeast 0 (level_at self.stretch self.left self.right s)) × (AtMost 9000000 (level_at self.stretch self.left self.right s)) }
    {
        let e = self.exact_at(s);
        let num = e.up - e.down;
        let whole = num / e.den;
        if 2 * (num % e.den) < e.den {
            whole as u32
        } else {
            (whole + 1) as u32
        }
    }
}
