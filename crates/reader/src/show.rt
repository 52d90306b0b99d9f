// The lines of a plan, printed as its file has them.
use activity::{Activity, Header};
use items::Item;
use std::fmt::{self, Display};
use text::list::Shape;

// The first line.
#[derive(Clone, Copy)]
pub struct FirstLine<'a>(pub &'a Header);

impl Display for FirstLine<'_> {
    fn fmt<W: fmt::Write>(&self, f: &mut fmt::Formatter<W>) -> fmt::Result {
        let h = self.0;
        write!(
            f,
            "plan\t{}\t{}\t{}\t{}",
            h.horizon, h.minute, h.capacity, h.floor
        )?;
        write!(
            f,
            "\t{}\t{}\t{}\t{}",
            h.first, h.rate, h.handover, h.engines
        )?;
        write!(f, "\t{}\t{}\t{}", h.peak, h.volume, h.heater)
    }
}

// A list field, and how its items are written.
#[derive(Clone, Copy)]
struct ListField<'a> {
    items: &'a [Item],
    shape: Shape,
}

impl Display for ListField<'_> {
    fn fmt<W: fmt::Write>(&self, f: &mut fmt::Formatter<W>) -> fmt::Result {
        if self.items.is_empty() {
            return f.write_str("-");
        }
        for (i, item) in self.items.iter().enumerate() {
            if i > 0 {
                f.write_str(",")?;
            }
            write!(f, "{}", item.first)?;
            match self.shape {
                Shape::One => {}
                Shape::Two(mark) => write!(f, "{}{}", char::from(mark), item.second)?,
                Shape::Three(mark) => {
                    let mark = char::from(mark);
                    write!(f, "{mark}{}{mark}{}", item.second, item.third)?;
                }
            }
        }
        Ok(())
    }
}

// A list of windows.
fn windows(items: &[Item]) -> ListField {
    ListField {
        items,
        shape: Shape::Three(b':'),
    }
}

// A list of ids or units.
fn numbers(items: &[Item]) -> ListField {
    ListField {
        items,
        shape: Shape::One,
    }
}

// A list of needs or sets.
fn settings(items: &[Item]) -> ListField {
    ListField {
        items,
        shape: Shape::Two(b'='),
    }
}

// An activity's line.
#[derive(Clone, Copy)]
pub struct ActivityLine<'a>(pub &'a Activity);

impl Display for ActivityLine<'_> {
    fn fmt<W: fmt::Write>(&self, f: &mut fmt::Formatter<W>) -> fmt::Result {
        let a = self.0;
        write!(
            f,
            "act\t{}\t{}\t{}\t{}",
            a.id, a.priority, a.duration, a.preferred
        )?;
        write!(f, "\t{}", windows(a.windows.as_slice()))?;
        write!(f, "\t{}", numbers(a.after.as_slice()))?;
        write!(f, "\t{}", numbers(a.units.as_slice()))?;
        write!(f, "\t{}", settings(a.needs.as_slice()))?;
        write!(f, "\t{}", settings(a.sets.as_slice()))?;
        write!(
            f,
            "\t{}\t{}\t{}\t{}\t{}",
            a.engines, a.peak, a.draw, a.volume, a.warm
        )
    }
}
