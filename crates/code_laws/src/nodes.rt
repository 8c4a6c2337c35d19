//! The terms below a node, one after the other.

ghost use Rattle.code_laws.specs.Laws.{NextTermsStand, NodesAreRedexes, NodesBegin, PlacesAreTaken};

/// A node begins with none of its terms done.
pub fn nodes_begin()
    ensures law { NodesBegin }
{}

/// The next term runs in the node's own environment, and stands in a context.
pub fn next_terms_stand()
    ensures law { NextTermsStand }
{}

/// The place of the next term, in its context, is one more that is done.
pub fn places_are_taken()
    ensures law { PlacesAreTaken }
{}

/// With all terms done that are reduced in place, the node is the redex of the whole term.
pub fn nodes_are_redexes()
    ensures law { NodesAreRedexes }
{}
