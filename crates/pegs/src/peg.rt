// What stands on a profile.

// A grade intersection point: station in metres, level in millimetres.
// stays: a type beside the rules' Point, which is any two figures from outside, while a peg is what an edit left
#[derive(Clone, Copy)]
pub struct Peg {
    pub station: u32,
    pub level: u32,
}

// A level that the road must keep at a station, from low to high.
#[derive(Clone, Copy)]
pub struct FixedLevel {
    pub station: u32,
    pub low: u32,
    pub high: u32,
}
