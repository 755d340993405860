// A road by the standard's five figures: class, terrain, speed, gradient and sight.
ghost use Rattle.std.specs.Prelude.{◌≡◌, ◌≤◌, MatchResult, Some, length, slice_get};
ghost use Rattle.rules.specs.Roads.{KindOf, RoadOf, class_figure, gradient_figure, sight_figure, speed_figure, terrain_figure};
ghost use Rattle.rules.specs.declared.refusal.Refusal.TheVariants.{UnknownRoadFigure};

use crate::refusal::Refusal;

// National and state highway, major district road, other district road, village road.
#[derive(Clone, Copy)]
pub enum Class {
    NhSh,
    Mdr,
    Odr,
    Vr,
}

#[derive(Clone, Copy)]
pub enum Terrain {
    Plain,
    Rolling,
    Mountainous,
    Steep,
}

// Which of the two design speeds of a class and terrain the road is laid out for.
#[derive(Clone, Copy)]
pub enum SpeedKind {
    Ruling,
    Minimum,
}

// Which of a terrain's three gradients the road may use.
#[derive(Clone, Copy)]
pub enum GradientKind {
    Ruling,
    Limiting,
    Exceptional,
}

// How far a driver must see over a summit: to stop, twice that, or to overtake.
#[derive(Clone, Copy)]
pub enum Sight {
    Stopping,
    Intermediate,
    Overtaking,
}

// The five figures as they came in.
// stays: figures and no enums, since an unknown one is refused by the refusal's number, like every figure from outside.
#[derive(Clone, Copy)]
pub struct RoadFigures {
    pub class: u32,
    pub terrain: u32,
    pub speed: u32,
    pub gradient: u32,
    pub sight: u32,
}

// What the figures stand for.
#[derive(Clone, Copy)]
pub struct Road {
    pub class: Class,
    pub terrain: Terrain,
    pub speed: SpeedKind,
    pub gradient: GradientKind,
    pub sight: Sight,
}

// The kind of this figure, where they are numbered from 0.
fn kind_at<K: Copy>(kinds: &[K], figure: u32) -> Result<K, Refusal>
    ensures { MatchResult result (λ kind. slice_get kinds.now figure ≡ Some kind) (λ e. (e ≡ UnknownRoadFigure) × (length kinds.now ≤ figure)) }
{
    kinds
        .get(figure as usize)
        .copied()
        .ok_or(Refusal::UnknownRoadFigure)
}

impl TryFrom<u32> for Class {
    type Error = Refusal;

    ghost try_from_gives = { KindOf class_figure 4 };

    fn try_from(figure: u32) -> Result<Self, Refusal> {
        kind_at(&[Self::NhSh, Self::Mdr, Self::Odr, Self::Vr], figure)
    }
}

impl TryFrom<u32> for Terrain {
    type Error = Refusal;

    ghost try_from_gives = { KindOf terrain_figure 4 };

    fn try_from(figure: u32) -> Result<Self, Refusal> {
        kind_at(
            &[Self::Plain, Self::Rolling, Self::Mountainous, Self::Steep],
            figure,
        )
    }
}

impl TryFrom<u32> for SpeedKind {
    type Error = Refusal;

    ghost try_from_gives = { KindOf speed_figure 2 };

    fn try_from(figure: u32) -> Result<Self, Refusal> {
        kind_at(&[Self::Ruling, Self::Minimum], figure)
    }
}

impl TryFrom<u32> for GradientKind {
    type Error = Refusal;

    ghost try_from_gives = { KindOf gradient_figure 3 };

    fn try_from(figure: u32) -> Result<Self, Refusal> {
        kind_at(&[Self::Ruling, Self::Limiting, Self::Exceptional], figure)
    }
}

impl TryFrom<u32> for Sight {
    type Error = Refusal;

    ghost try_from_gives = { KindOf sight_figure 3 };

    fn try_from(figure: u32) -> Result<Self, Refusal> {
        kind_at(
            &[Self::Stopping, Self::Intermediate, Self::Overtaking],
            figure,
        )
    }
}

impl TryFrom<RoadFigures> for Road {
    type Error = Refusal;

    ghost try_from_gives = { RoadOf };

    fn try_from(figures: RoadFigures) -> Result<Self, Refusal> {
        Ok(Road {
            class: figures.class.try_into()?,
            terrain: figures.terrain.try_into()?,
            speed: figures.speed.try_into()?,
            gradient: figures.gradient.try_into()?,
            sight: figures.sight.try_into()?,
        })
    }
}
