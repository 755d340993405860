// The standard's tables: design speeds by class and terrain, and what each design speed asks.
ghost use Rattle.std.specs.Prelude.{◌≡◌, ◌≤◌};
ghost use Rattle.rules.specs.Speeds.{asked as asked_at, design_speed, WithinTable};

use crate::road::{Road, SpeedKind};

// The nine speeds that roads are laid out for, in km/h.
#[derive(Clone, Copy)]
pub enum DesignSpeed {
    Kmh20,
    Kmh25,
    Kmh30,
    Kmh35,
    Kmh40,
    Kmh50,
    Kmh65,
    Kmh80,
    Kmh100,
}

// What is asked at a design speed: sight distances and least length in metres, change of grade in thousandths.
#[derive(Clone, Copy)]
pub struct Asked {
    pub kmh: u32,
    pub stopping: u32,
    // where the standard gives one
    pub overtaking: Option<u32>,
    pub free_change: u32,
    pub least_length: u32,
}

use DesignSpeed::{Kmh20, Kmh25, Kmh30, Kmh35, Kmh40, Kmh50, Kmh65, Kmh80, Kmh100};

// Ruling and minimum speed, by class and terrain.
static SPEEDS: [[(DesignSpeed, DesignSpeed); 4]; 4] = [
    [
        (Kmh100, Kmh80),
        (Kmh80, Kmh65),
        (Kmh50, Kmh40),
        (Kmh40, Kmh30),
    ],
    [
        (Kmh80, Kmh65),
        (Kmh65, Kmh50),
        (Kmh40, Kmh30),
        (Kmh30, Kmh20),
    ],
    [
        (Kmh65, Kmh50),
        (Kmh50, Kmh40),
        (Kmh30, Kmh25),
        (Kmh25, Kmh20),
    ],
    [
        (Kmh50, Kmh40),
        (Kmh40, Kmh35),
        (Kmh25, Kmh20),
        (Kmh25, Kmh20),
    ],
];

// By design speed, slowest first.
static ASKED: [Asked; 9] = [
    Asked {
        kmh: 20,
        stopping: 20,
        overtaking: None,
        free_change: 15,
        least_length: 15,
    },
    Asked {
        kmh: 25,
        stopping: 25,
        overtaking: None,
        free_change: 15,
        least_length: 15,
    },
    Asked {
        kmh: 30,
        stopping: 30,
        overtaking: None,
        free_change: 15,
        least_length: 15,
    },
    Asked {
        kmh: 35,
        stopping: 45,
        overtaking: None,
        free_change: 15,
        least_length: 15,
    },
    Asked {
        kmh: 40,
        stopping: 45,
        overtaking: Some(165),
        free_change: 12,
        least_length: 20,
    },
    Asked {
        kmh: 50,
        stopping: 60,
        overtaking: Some(235),
        free_change: 10,
        least_length: 30,
    },
    Asked {
        kmh: 65,
        stopping: 90,
        overtaking: Some(340),
        free_change: 8,
        least_length: 40,
    },
    Asked {
        kmh: 80,
        stopping: 120,
        overtaking: Some(470),
        free_change: 6,
        least_length: 50,
    },
    Asked {
        kmh: 100,
        stopping: 180,
        overtaking: Some(640),
        free_change: 5,
        least_length: 60,
    },
];

// The design speed of a road.
fn speed_for(road: Road) -> DesignSpeed
    ensures { result ≡ design_speed road }
{
    let (ruling, minimum) = SPEEDS[road.class as usize][road.terrain as usize];
    match road.speed {
        SpeedKind::Ruling => ruling,
        SpeedKind::Minimum => minimum,
    }
}

impl DesignSpeed {
    // The table's row of this speed.
    fn asked(self) -> Asked
        ensures value { result ≡ asked_at self }
        ensures small { WithinTable result }
    {
        ASKED[self as usize]
    }
}

// What the standard asks of a road at its design speed.
pub(crate) fn asked_of(road: Road) -> Asked
    ensures value { result ≡ asked_at (design_speed road) }
    ensures small { WithinTable result }
{
    speed_for(road).asked()
}
