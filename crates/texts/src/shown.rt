// A gradient as the report writes it.

use gradient::{
    Color, Coordinate, Direction, Extent, Gradient, Horizontal, Position, Shape, Side, Size, Stop,
    Vertical,
};
use std::fmt;

// A part of a gradient, to be written.
#[derive(Clone, Copy, Debug, PartialEq, Eq)]
pub struct Shown<T>(pub T);

// A number of thousandths, and its unit.
#[derive(Clone, Copy, Debug, PartialEq, Eq)]
struct Quantity(i32, &'static str);

impl fmt::Display for Quantity {
    fn fmt<W: fmt::Write>(&self, f: &mut fmt::Formatter<W>) -> fmt::Result {
        let Quantity(thousandths, unit) = *self;
        let sign = if thousandths < 0 { "-" } else { "" };
        let size = thousandths.unsigned_abs();
        write!(f, "{sign}{}.{:03}{unit}", size / 1000, size % 1000)
    }
}

// Kept: an `impl` for each enum, here and below, as each is the words of that enum and nothing more.
impl fmt::Display for Shown<Horizontal> {
    fn fmt<W: fmt::Write>(&self, f: &mut fmt::Formatter<W>) -> fmt::Result {
        f.write_str(match self.0 {
            Horizontal::Left => "left",
            Horizontal::Right => "right",
        })
    }
}

impl fmt::Display for Shown<Vertical> {
    fn fmt<W: fmt::Write>(&self, f: &mut fmt::Formatter<W>) -> fmt::Result {
        f.write_str(match self.0 {
            Vertical::Top => "top",
            Vertical::Bottom => "bottom",
        })
    }
}

impl fmt::Display for Shown<Side> {
    fn fmt<W: fmt::Write>(&self, f: &mut fmt::Formatter<W>) -> fmt::Result {
        f.write_str(match self.0 {
            Side::Top => "top",
            Side::Right => "right",
            Side::Bottom => "bottom",
            Side::Left => "left",
        })
    }
}

impl fmt::Display for Shown<Direction> {
    fn fmt<W: fmt::Write>(&self, f: &mut fmt::Formatter<W>) -> fmt::Result {
        match self.0 {
            Direction::Side(side) => write!(f, "to {}", Shown(side)),
            Direction::Corner(v, h) => write!(f, "to {} {}", Shown(v), Shown(h)),
            Direction::Angle(angle) => write!(f, "{}", Quantity(angle, "deg")),
        }
    }
}

impl fmt::Display for Shown<Extent> {
    fn fmt<W: fmt::Write>(&self, f: &mut fmt::Formatter<W>) -> fmt::Result {
        f.write_str(match self.0 {
            Extent::ClosestSide => "closest-side",
            Extent::ClosestCorner => "closest-corner",
            Extent::FarthestSide => "farthest-side",
            Extent::FarthestCorner => "farthest-corner",
        })
    }
}

impl fmt::Display for Shown<Size> {
    fn fmt<W: fmt::Write>(&self, f: &mut fmt::Formatter<W>) -> fmt::Result {
        match self.0 {
            Size::Extent(extent) => write!(f, "{}", Shown(extent)),
            Size::Length(radius) => write!(f, "{}", Quantity(radius, "px")),
        }
    }
}

impl fmt::Display for Shown<Coordinate> {
    fn fmt<W: fmt::Write>(&self, f: &mut fmt::Formatter<W>) -> fmt::Result {
        match self.0 {
            Coordinate::Length(length) => write!(f, "{}", Quantity(length, "px")),
            Coordinate::Percentage(percentage) => write!(f, "{}", Quantity(percentage, "%")),
        }
    }
}

impl fmt::Display for Shown<Shape> {
    fn fmt<W: fmt::Write>(&self, f: &mut fmt::Formatter<W>) -> fmt::Result {
        match self.0 {
            Shape::Linear(direction) => write!(f, "linear {}", Shown(direction)),
            Shape::Circle(size, x, y) => {
                write!(f, "radial {} at {} {}", Shown(size), Shown(x), Shown(y))
            }
        }
    }
}

impl fmt::Display for Shown<Color> {
    fn fmt<W: fmt::Write>(&self, f: &mut fmt::Formatter<W>) -> fmt::Result {
        let Color {
            red,
            green,
            blue,
            alpha,
        } = self.0;
        write!(f, "#{red:02x}{green:02x}{blue:02x}{alpha:02x}")
    }
}

// Nothing, or a space and the position.
impl fmt::Display for Shown<Position> {
    fn fmt<W: fmt::Write>(&self, f: &mut fmt::Formatter<W>) -> fmt::Result {
        match self.0 {
            Position::Auto => Ok(()),
            Position::Length(length) => write!(f, " {}", Quantity(length, "px")),
            Position::Percentage(percentage) => write!(f, " {}", Quantity(percentage, "%")),
        }
    }
}

impl fmt::Display for Shown<Stop> {
    fn fmt<W: fmt::Write>(&self, f: &mut fmt::Formatter<W>) -> fmt::Result {
        let stop = self.0;
        write!(f, " | {}{}", Shown(stop.color), Shown(stop.position))
    }
}

impl fmt::Display for Shown<Gradient> {
    fn fmt<W: fmt::Write>(&self, f: &mut fmt::Formatter<W>) -> fmt::Result {
        let gradient = self.0;
        if gradient.repeating {
            f.write_str("repeating ")?;
        }
        write!(f, "{}", Shown(gradient.shape))?;
        for stop in gradient.stops() {
            write!(f, "{}", Shown(*stop))?;
        }
        Ok(())
    }
}
