//! Components: the futures whose walks end alike. A member leads up to the head of its component,
//! which keeps how the walks end. The lower of two heads goes below the higher one, so that a way up
//! is a logarithm long.

ghost use Rattle.std.specs.Prelude.{◌≡◌, ◌<◌, ◌^◌, length, map};
ghost use Rattle.asp_model.specs.Shapes.{future_shape};
ghost use Rattle.future_table.specs.Components.{joined, lesser_of, put_below as below, with_end};
ghost use Rattle.future_table.specs.Links.{IsAsAt, IsHead, LeadUp, link_at};

use crate::numbers::Numbers;
use std::cmp::{Ordering, max};

/// How the walks of a component end. Futures stand by their numbers.
#[derive(Clone, Copy, Debug)]
pub enum End {
    /// At this future, whose value has a root that is no future.
    Value(usize),
    /// At this future, which has no value.
    Unfilled(usize),
    /// Nowhere: they come into a cycle.
    Cycle,
}

/// How a future stands in its component.
#[derive(Clone, Copy, Debug)]
pub struct Link {
    /// A member nearer to the head; none at the head.
    pub up: Option<usize>,
    /// No way that leads up to here is longer.
    pub height: usize,
    /// At the head: the least future of the component.
    pub least: usize,
    /// At the head: how the walks end.
    pub end: End,
}

/// The head of the component of a future.
pub fn head_of(links: &[Link], from: usize) -> usize
    requires within { from < length links.now }
    requires lead { LeadUp links.now }
    ensures head { IsHead links.now result }
    ensures alike { IsAsAt links.now from result }
{
    let mut at = from;
    let mut link = links[from];
    while let Some(up) = link.up {
        at = up;
        link = links[up];
    }
    at
}

/// Says how the walks of a component end.
pub fn end_so(links: &mut [Link], head: usize, end: End)
    requires within { head < length links.old }
    ensures { links.new ≡ with_end links.old head end }
{
    links[head].end = end;
}

/// Joins two components. The walks of both end as those of the second, and the lower head goes below
/// the higher one.
pub fn join(names: &Numbers, links: &mut [Link], first: usize, second: usize)
    requires first { first < length links.old }
    requires second { second < length links.old }
    requires count { length links.old ≡ length names.now }
    requires known { (link_at links.old first).least < length names.now }
    requires known_too { (link_at links.old second).least < length names.now }
    requires low { (link_at links.old first).height < 2 ^ 63 }
    requires low_too { (link_at links.old second).height < 2 ^ 63 }
    ensures { links.new ≡ joined (map future_shape names.now) links.old first second }
{
    let least = lesser(names, links[first].least, links[second].least);
    let end = links[second].end;
    if links[first].height < links[second].height {
        put_below(links, first, second, least, end);
    } else {
        put_below(links, second, first, least, end);
    }
}

fn put_below(links: &mut [Link], low: usize, high: usize, least: usize, end: End)
    requires low { low < length links.old }
    requires high { high < length links.old }
    requires height { (link_at links.old low).height < 2 ^ 63 }
    ensures { links.new ≡ below links.old low high least end }
{
    let under = links[low];
    let height = max(links[high].height, under.height + 1);
    links[low] = Link {
        up: Some(high),
        height: under.height,
        least: under.least,
        end: under.end,
    };
    links[high] = Link {
        up: None,
        height,
        least,
        end,
    };
}

fn lesser(names: &Numbers, one: usize, two: usize) -> usize
    requires one { one < length names.now }
    requires two { two < length names.now }
    ensures { result ≡ lesser_of (map future_shape names.now) one two }
{
    match names.name(two).cmp(names.name(one)) {
        Ordering::Less => two,
        _ => one,
    }
}
