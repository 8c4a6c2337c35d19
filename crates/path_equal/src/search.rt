//! A search for the n-th of places that follow each other.

ghost use Rattle.std.specs.Prelude.{◌≡◌, ◌∷◌, []};
ghost use Rattle.std.specs.Option.{option_to_list};
ghost use Rattle.path_equal.specs.Searches.{searched};

/// How far a search is.
#[derive(Clone, Copy)]
pub enum Search {
    /// So many places are still to be passed.
    Left(usize),
    /// It is at this place.
    Found(usize),
}

/// The search after these places were passed.
pub fn past(search: Search, places: &[usize]) -> Search
    ensures searched { result ≡ searched places.now search }
{
    match search {
        Search::Found(place) => Search::Found(place),
        Search::Left(left) => {
            if left < places.len() {
                Search::Found(places[left])
            } else {
                Search::Left(left - places.len())
            }
        }
    }
}

/// The search after this place was passed.
pub fn past_place(search: Search, place: usize) -> Search
    ensures searched { result ≡ searched (place ∷ []) search }
{
    match search {
        Search::Found(found) => Search::Found(found),
        Search::Left(left) => {
            if left == 0 {
                Search::Found(place)
            } else {
                Search::Left(left - 1)
            }
        }
    }
}

/// Behind a place, if there is one.
pub fn past_some(search: Search, place: Option<usize>) -> Search
    ensures searched { result ≡ searched (option_to_list place) search }
{
    match place {
        Some(place) => past_place(search, place),
        None => search,
    }
}
