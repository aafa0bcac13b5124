ghost use Rattle.std.specs.Prelude.{◌≡◌, Some};
ghost use Rattle.scheme_data.specs.Forms.{form};
ghost use Rattle.core_forms.specs.Code.{data_of, left_in, left_all, nests_in, all_nest_in};

use scheme_data::Datum;

/// Whether lists and vectors nest at most so deep in a datum.
#[cycle(nests)]
pub fn nests_within(datum: &Datum, room: u32) -> bool
    ensures { result ≡ nests_in room (form datum.now) }
{
    match datum {
        Datum::List(_, items) => room > 0 && all_nest_within(items.as_slice(), room - 1),
        Datum::Vector(_, items) => room > 0 && all_nest_within(items.as_slice(), room - 1),
        Datum::Dotted(_, items, tail) => {
            room > 0
                && all_nest_within(items.as_slice(), room - 1)
                && nests_within(tail.get(), room - 1)
        }
        _ => true,
    }
}

#[cycle(nests)]
fn all_nest_within(items: &[Datum], room: u32) -> bool
    ensures { result ≡ all_nest_in room (data_of items.now) }
{
    for item in items {
        if !nests_within(item, room) {
            return false;
        }
    }
    true
}

/// What is left of a number once the data in a datum are taken away; none where there are more.
#[cycle(left)]
pub fn left_after(datum: &Datum, most: u32) -> Option<u32>
    ensures { result ≡ left_in (Some most) (form datum.now) }
{
    if most == 0 {
        return None;
    }
    match datum {
        Datum::List(_, items) => left_after_all(items.as_slice(), most - 1),
        Datum::Vector(_, items) => left_after_all(items.as_slice(), most - 1),
        Datum::Dotted(_, items, tail) => {
            let left = left_after_all(items.as_slice(), most - 1)?;
            left_after(tail.get(), left)
        }
        _ => Some(most - 1),
    }
}

#[cycle(left)]
fn left_after_all(items: &[Datum], most: u32) -> Option<u32>
    ensures { result ≡ left_all (Some most) (data_of items.now) }
{
    let mut left = most;
    for item in items {
        left = left_after(item, left)?;
    }
    Some(left)
}
