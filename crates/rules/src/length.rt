// The length of a curve.
ghost use Rattle.std.specs.Prelude.{◌≡◌, ◌*◌, ◌%◌, ◌≤◌, MatchResult};
ghost use Rattle.rules.specs.declared.refusal.Refusal.TheVariants.{LengthOutOfStep};

use crate::refusal::Refusal;

// Whole metres, in steps of five.
#[derive(Clone, Copy)]
pub struct Length {
    pub metres: u32,
    ghost step: { metres % 5 ≡ 0 },
    ghost most: { metres ≤ 2000 },
}

impl Length {
    pub fn new(metres: u32) -> Result<Length, Refusal>
        ensures { MatchResult result (λ l. l.metres ≡ metres) (λ e. (e ≡ LengthOutOfStep) × (metres % 5 ≡ 0 → metres ≤ 2000 → ⊥)) }
    {
        if metres % 5 != 0 || metres > 2000 {
            return Err(Refusal::LengthOutOfStep);
        }
        Ok(Length { metres })
    }

    // So many steps of five metres.
    pub(crate) fn of_steps(steps: u32) -> Length
        requires { steps ≤ 400 }
        ensures { result.metres ≡ 5 * steps }
    {
        Length { metres: 5 * steps }
    }
}
