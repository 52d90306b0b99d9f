// An activity's line.
ghost use Rattle.std.specs.Prelude.{◌≡◌};
ghost use Rattle.rules.specs.ActivityLine.{activity_of};
ghost use Rattle.rules.specs.Lines.{split_on};
ghost use Rattle.rules.specs.Refusals.{read_as};
ghost use Rattle.activity.specs.View.{header_view, activity_view};
ghost use Rattle.line.specs.Forms.{window_form, number_form, setting_form};

use crate::fields::Fields;
use activity::{Activity, Header};
use rules::Fault;
use text::list::{Form, Shape};

// Windows, `a:p:b`.
pub fn windows() -> Form
    ensures { result ≡ window_form }
{
    Form {
        shape: Shape::Three(b':'),
        most_first: 4095,
        most_others: 4095,
        spans: true,
        most: 4,
    }
}

// At most `most` numbers from 0 to hi.
pub fn numbers(hi: u32, most: usize) -> Form
    ensures { result ≡ number_form hi most }
{
    Form {
        shape: Shape::One,
        most_first: hi,
        most_others: hi,
        spans: false,
        most,
    }
}

// Needs or sets, `v=k`.
pub fn settings() -> Form
    ensures { result ≡ setting_form }
{
    Form {
        shape: Shape::Two(b'='),
        most_first: 7,
        most_others: 255,
        spans: false,
        most: 4,
    }
}

// What the line l says as an activity's line, in a plan with this header.
#[tactic(auto, using(crate::proofs::Steps::reading_on, crate::proofs::Steps::lists_read), unfolding(rules::specs::ActivityLine::activity_of, rules::specs::Refusals::read_as, activity::specs::View::activity_view, activity::specs::View::header_view))]
pub fn read_activity(l: &[u8], header: &Header) -> Result<Activity, Fault>
    ensures { read_as activity_view result ≡ activity_of (header_view header.now) (split_on 9 l.now) }
{
    let mut fields = Fields::of(l);
    // The word.
    fields.next();
    Ok(Activity {
        id: fields.number(0, 65535)?,
        priority: fields.number(0, 65535)?,
        duration: fields.number(1, header.horizon)?,
        preferred: fields.number(0, 4095)?,
        windows: fields.list(windows())?,
        after: fields.list(numbers(65535, 8))?,
        units: fields.list(numbers(31, 32))?,
        needs: fields.list(settings())?,
        sets: fields.list(settings())?,
        engines: fields.number(0, 64)?,
        peak: fields.number(0, 1_000_000)?,
        draw: fields.number(0, 1_000_000)?,
        volume: fields.number(0, 1_000_000_000)?,
        warm: fields.number(0, 1)?,
    })
}
