//! A seat for each of a list, from which a thread takes it and to which it brings it back.
ghost use Rattle.std.specs.Prelude.{◌≡◌, ◌≤◌, [], All, IsSome, map, Some, vec_len, vec_capacity};

/// A seat for each of these, in the room that is there.
pub fn seated<T: Drop>(all: Vec<T>, mut seats: Vec<Option<T>>) -> Vec<Option<T>>
    requires empty { seats.items ≡ [] }
    requires room { vec_len all ≤ vec_capacity seats }
    ensures { result.items ≡ map Some all.items }
{
    for one in all {
        seats.push_reserved(Some(one));
    }
    seats
}

/// Those in the seats, in the room that is there.
pub fn left_of<T: Drop>(seats: Vec<Option<T>>, mut all: Vec<T>) -> Vec<T>
    requires empty { all.items ≡ [] }
    requires room { vec_len seats ≤ vec_capacity all }
    requires some { All (λ seat. IsSome seat) seats.items }
    ensures { map Some result.items ≡ seats.items }
{
    for seat in seats {
        let Some(one) = seat else { unreachable!() };
        all.push_reserved(one);
    }
    all
}
