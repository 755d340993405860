// The clause by which a code refuses a grade or a curve.
ghost use Rattle.std.specs.Prelude.{◌≤◌};

// The number of the clause that refuses a grade or a curve.
#[derive(Clone, Copy)]
pub struct ClauseNumber {
    pub number: u8,
    ghost above_zero: { 1 ≤ number },
}

impl ClauseNumber {
    ghost use Rattle.rules.specs.Told.{Told};

    // A verdict as a code tells it: passed where it is 0.
    // stays: a function and no From, since neither a u8 nor a Result is a type of this crate.
    pub(crate) fn told(verdict: u8) -> Result<(), ClauseNumber>
        ensures { Told verdict result }
    {
        if verdict == 0 {
            return Ok(());
        }
        Err(ClauseNumber { number: verdict })
    }
}
