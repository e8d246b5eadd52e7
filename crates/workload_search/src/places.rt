//! Lists of places in a pool.
ghost use Rattle.std.specs.Prelude.{◌≡◌, ◌<◌, ◌∷◌, ◌++◌, [], length};

use question_model::Places;

/// The same places.
pub fn copied(places: &Places) -> Places
    ensures { result.items ≡ places.now.items }
{
    let mut copy = Places::new();
    for place in places.as_slice() {
        copy.push(*place);
    }
    copy
}

/// The places, followed by one more.
pub fn extended(places: &Places, place: usize) -> Places
    requires { length places.now.items < 8 }
    ensures { result.items ≡ places.now.items ++ place ∷ [] }
{
    let mut longer = copied(places);
    longer.push(place);
    longer
}
