//! The first activity of which a service could tell one run from another.

ghost use Rattle.std.specs.Prelude.{◌≡◌, ◌≤◌, drop, length, map, IfNone, IfSome};
ghost use Rattle.std.specs.Option.{option_map};
ghost use Rattle.asp_model.specs.Shapes.{service_entry_shape, services_shape};
ghost use Rattle.law_services.specs.Told.{
  AreSameServices,
  IsFirstDifference,
  NamesAscend,
  same_to_services,
};
ghost use Rattle.determinacy.specs.Walks.{
  first_polled as polled_among,
  first_told as told_among,
  lesser_of,
  named,
  past,
};

use crate::arrivals::all_find_same;
use asp_model::{ActivityName, ServiceEntry, Services};

// The place behind the entries of lesser names.
fn past_lesser(entries: &[ServiceEntry], from: usize, name: &ActivityName) -> usize
    requires within { from ≤ length entries.now }
    ensures within { result ≤ length entries.now }
    ensures past { let shapes = map service_entry_shape (drop from entries.now) in
        map service_entry_shape (drop result entries.now) ≡ past name.now shapes }
{
    for place in from..entries.len() {
        if entries[place].name >= *name {
            return place;
        }
    }
    entries.len()
}

fn is_same(entry: &ServiceEntry, others: &[ServiceEntry], place: usize) -> bool
    ensures { let ours = service_entry_shape entry.now in
        let other = named ours.name (map service_entry_shape (drop place others.now)) in
        result ≡ same_to_services ours other }
{
    if entry.polled {
        return false;
    }
    match others.get(place) {
        Some(other) if other.name == entry.name => {
            !other.polled && all_find_same(entry, &other.arrivals.items)
        }
        _ => all_find_same(entry, &[]),
    }
}

fn first_told<'a>(entries: &'a [ServiceEntry], others: &[ServiceEntry]) -> Option<&'a ActivityName>
    ensures { let theirs = map service_entry_shape others.now in
        let told = told_among (map service_entry_shape entries.now) theirs in
        option_map (λ n. n.now) result ≡ told }
{
    let mut from = 0;
    for place in 0..entries.len() {
        let entry = &entries[place];
        from = past_lesser(others, from, &entry.name);
        if !is_same(entry, others, from) {
            return Some(&entry.name);
        }
    }
    None
}

fn first_polled(entries: &[ServiceEntry]) -> Option<&ActivityName>
    ensures { let shapes = map service_entry_shape entries.now in
        option_map (λ n. n.now) result ≡ polled_among shapes }
{
    for place in 0..entries.len() {
        if entries[place].polled {
            return Some(&entries[place].name);
        }
    }
    None
}

// The lesser of two names, where both are there.
fn lesser<'a>(
    name: Option<&'a ActivityName>,
    other: Option<&'a ActivityName>,
) -> Option<&'a ActivityName>
    ensures { let first = option_map (λ n. n.now) name.entry in
        let second = option_map (λ n. n.now) other.entry in
        option_map (λ n. n.now) result ≡ lesser_of first second }
{
    let Some(first) = name else {
        return other;
    };
    let Some(second) = other else {
        return name;
    };
    if second < first { other } else { name }
}

/// The least-named activity that polled on a side, or of which a service of the first side finds
/// requests in another order on the second; none where no service could tell.
pub fn first_difference<'a>(a: &'a Services, b: &'a Services) -> Option<&'a ActivityName>
    requires ascending { NamesAscend (services_shape a.now) }
    requires ascending_too { NamesAscend (services_shape b.now) }
    ensures same { IfNone result (AreSameServices (services_shape a.now) (services_shape b.now)) }
    ensures least { IfSome result
        (λ n. IsFirstDifference (services_shape a.now) (services_shape b.now) n.now) }
{
    lesser(first_told(&a.entries, &b.entries), first_polled(&b.entries))
}
