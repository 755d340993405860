// A point of a grade line: figures as they came in, not yet checked.
ghost use Rattle.std.specs.Prelude.{◌≡◌, ◌≤◌, MatchResult};
ghost use Rattle.rules.specs.Points.{PointsRefused, PointsSound, rise, run};

use crate::refusal::Refusal;

#[derive(Clone, Copy)]
pub struct Point {
    pub station: u32,
    pub level: u32,
}

// That points may stand on a road one after another, or the first reason against them.
pub(crate) fn sound(points: &[Point]) -> Result<(), Refusal>
    ensures { MatchResult result (λ _. PointsSound points.now) (λ e. PointsRefused points.now e) }
{
    if points.iter().any(|point| point.station > 10_000) {
        return Err(Refusal::StationTooHigh);
    }
    if points.iter().any(|point| point.level > 9_000_000) {
        return Err(Refusal::LevelTooHigh);
    }
    if points.windows(2).any(|pair| pair[1].station.saturating_sub(pair[0].station) < 10) {
        return Err(Refusal::StationsNotRising);
    }
    Ok(())
}

impl Point {
    // Metres along to a later point.
    pub(crate) fn run_to(self, next: Point) -> u32
        requires { self.station ≤ next.station }
        ensures { result ≡ run self next }
    {
        next.station - self.station
    }

    // Millimetres up to another point, below zero where it is lower.
    pub(crate) fn rise_to(self, next: Point) -> i64
        ensures { result ≡ rise self next }
    {
        next.level as i64 - self.level as i64
    }
}
