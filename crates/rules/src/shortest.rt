// The shortest curve that a code passes at a turn.
ghost use Rattle.std.specs.Prelude.{◌≡◌, ◌*◌, ◌<◌, ℕ, MatchOption, MatchResult};
ghost use Rattle.rules.specs.Shortest.{NoneBelow, NonePasses, ShortestPassing};

use crate::clause::ClauseNumber;
use crate::code::RoadCode;
use crate::length::Length;
use crate::turn::Turn;

// No length passes; the clause is the one at 2,000 m, the longest.
#[derive(Clone, Copy)]
pub struct NoLength {
    pub clause: ClauseNumber,
}

// The steps of the shortest length below 2,000 m that passes.
fn steps_below_longest<C: RoadCode>(code: &C, turn: Turn) -> Option<u32>
    ensures { MatchOption result (NoneBelow (C.curve_verdict code.now turn.bend) 2000) (λ steps. (steps < 400) × ShortestPassing (C.curve_verdict code.now turn.bend) (5 * steps)) }
{
    (0..400u32).find(|&steps| code.curve(turn, Length::of_steps(steps)).is_ok())
}

// The shortest length that the code passes at the turn, or that there is none.
pub fn shortest<C: RoadCode>(code: &C, turn: Turn) -> Result<Length, NoLength>
    ensures { MatchResult result (λ l. ShortestPassing (C.curve_verdict code.now turn.bend) l.metres) (λ e. NonePasses (C.curve_verdict code.now turn.bend) × (e.clause.number ≡ C.curve_verdict code.now turn.bend 2000)) }
{
    if let Some(steps) = steps_below_longest(code, turn) {
        return Ok(Length::of_steps(steps));
    }
    let longest = Length { metres: 2000 };
    code.curve(turn, longest)
        .map_err(|clause| NoLength { clause })?;
    Ok(longest)
}
