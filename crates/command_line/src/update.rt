//! Strategies by labels, as `LABEL=STRATEGY,..` writes them.

ghost use Rattle.std.specs.Prelude.{◌≡◌, ◌≤◌, ◌++◌, ◌∷◌, [], IfOk, IfErr, Some, None};
ghost use Rattle.std.specs.Prelude.{map, option_map};
ghost use Rattle.std.specs.List.{list_all, list_any, slice_split};
ghost use Rattle.asp_model.specs.Names.{same_text};
ghost use Rattle.asp_model.specs.Readable.{
  is_identifier as is_identifier_text,
  is_inner as is_inner_byte,
  is_letter as is_letter_byte,
  reserved_words,
};
ghost use Rattle.asp_model.specs.Term.{has_text};
ghost use Rattle.update_policy.specs.Plans.{pair_shape};
ghost use Rattle.command_line.specs.Settings.{
  is_comma,
  joined,
  pair_in,
  pair_of,
  pairs_within,
  strategy_in as strategy_within,
  update_of,
};
ghost use Rattle.command_line.specs.Reserved.{
  words_of_activities,
  words_of_choices,
  words_of_groups,
  words_of_values,
};
ghost use Rattle.command_line.specs.Shapes.{text_behind};
ghost use Rattle.command_line.specs.declared.error.WordsError.TheVariants as errors;

use crate::error::WordsError;
use asp_model::{Label, Word};
use std::alloc::{AllocError, Global};
use update_policy::Strategy;

/// The labels that may be listed.
pub const MOST_UPDATES: usize = 16;

/// The strategy of this name.
pub fn strategy_in(text: &str) -> Option<Strategy>
    ensures { result ≡ strategy_within text.now }
{
    if text == "lazy" {
        Some(Strategy::Lazy)
    } else if text == "forward" {
        Some(Strategy::Forward)
    } else if text == "message" {
        Some(Strategy::Message)
    } else {
        None
    }
}

/// The pairs of a text, in order.
pub fn update_in(alloc: Global, text: Option<&str>) -> Result<Vec<(Label, Strategy)>, WordsError>
    ensures ok { IfOk result
        (λ v. update_of (text_behind text.entry) ≡ Some (map pair_shape v.items)) }
    ensures usage { IfErr result
        (λ e. e ≡ errors.Usage → update_of (text_behind text.entry) ≡ None) }
{
    match text {
        Some(text) => add_pairs(alloc, Vec::new(alloc), text, MOST_UPDATES),
        None => Ok(Vec::new(alloc)),
    }
}

// The pairs of a text behind these, of so many at most.
fn add_pairs(
    alloc: Global,
    pairs: Vec<(Label, Strategy)>,
    text: &str,
    most: usize,
) -> Result<Vec<(Label, Strategy)>, WordsError>
    requires some { 1 ≤ most }
    ensures ok { let parts = slice_split is_comma text.now in IfOk result (λ v.
        pairs_within most (map pair_shape pairs.items) parts ≡ Some (map pair_shape v.items)) }
    ensures usage { let parts = slice_split is_comma text.now in IfErr result
        (λ e. e ≡ errors.Usage → pairs_within most (map pair_shape pairs.items) parts ≡ None) }
{
    match text.split_once(',') {
        None => add_pair(alloc, pairs, text),
        Some((part, rest)) => {
            if most == 1 {
                return Err(WordsError::Usage);
            }
            let pairs = add_pair(alloc, pairs, part)?;
            add_pairs(alloc, pairs, rest, most - 1)
        }
    }
}

// One pair more, whose label is not listed.
fn add_pair(
    alloc: Global,
    pairs: Vec<(Label, Strategy)>,
    text: &str,
) -> Result<Vec<(Label, Strategy)>, WordsError>
    ensures ok { IfOk result (λ v.
        joined (map pair_shape pairs.items) (pair_in text.now) ≡ Some (map pair_shape v.items)) }
    ensures usage { IfErr result
        (λ e. e ≡ errors.Usage → joined (map pair_shape pairs.items) (pair_in text.now) ≡ None) }
{
    let Some((label, strategy)) = pair_at(text) else {
        return Err(WordsError::Usage);
    };
    if is_listed(&pairs, label) {
        return Err(WordsError::Usage);
    }
    let label = label_of(alloc, label)?;
    Ok(with_pair(pairs, label, strategy)?)
}

fn with_pair(
    mut pairs: Vec<(Label, Strategy)>,
    label: Label,
    strategy: Strategy,
) -> Result<Vec<(Label, Strategy)>, AllocError>
    ensures { IfOk result (λ v. map pair_shape v.items
        ≡ map pair_shape pairs.items ++ (label.text, strategy) ∷ []) }
{
    pairs.push((label, strategy))?;
    Ok(pairs)
}

// The label and the strategy of a pair.
fn pair_at(text: &str) -> Option<(&str, Strategy)>
    ensures { option_map (λ x. (x.0.now, x.1)) result ≡ pair_in text.entry.now }
{
    let Some((label, strategy)) = text.split_once('=') else {
        return None;
    };
    if !is_identifier(label) {
        return None;
    }
    match strategy_in(strategy) {
        Some(strategy) => Some((label, strategy)),
        None => None,
    }
}

fn label_of(alloc: Global, text: &str) -> Result<Label, AllocError>
    ensures label { IfOk result (λ l. l.text ≡ text.now) }
{
    Ok(Label {
        text: Word::new(String::from_str(alloc, text)?),
    })
}

fn is_listed(pairs: &[(Label, Strategy)], label: &str) -> bool
    ensures { result ≡ list_any (λ y. same_text label.now y.0) (map pair_shape pairs.now) }
{
    for pair in pairs {
        if label == pair.0.text.as_str() {
            return true;
        }
    }
    false
}

// A name of the language.
#[tactic(auto, unfolding(asp_model::specs::Readable::is_identifier))]
fn is_identifier(text: &str) -> bool
    ensures { result ≡ is_identifier_text text.now }
{
    match text.as_bytes().split_first() {
        None => false,
        Some((first, rest)) => is_letter(*first) && are_inner(rest) && !is_reserved(text),
    }
}

fn is_letter(b: u8) -> bool
    ensures { result ≡ is_letter_byte b }
{
    (65 <= b && b <= 90) || (97 <= b && b <= 122) || b == 95
}

fn is_inner(b: u8) -> bool
    ensures { result ≡ is_inner_byte b }
{
    is_letter(b) || (48 <= b && b <= 57)
}

fn are_inner(bytes: &[u8]) -> bool
    ensures { result ≡ list_all is_inner_byte bytes.now }
{
    bytes.iter().all(|b| is_inner(*b))
}

// The words are looked at in four parts: a chain of sixteen takes long to prove.
#[tactic(auto, using(crate::proofs::ReservedLemmas::reserved_in_parts))]
fn is_reserved(text: &str) -> bool
    ensures { result ≡ has_text text.now reserved_words }
{
    is_of_choices(text) || is_of_activities(text) || is_of_values(text) || is_of_groups(text)
}

fn is_of_choices(text: &str) -> bool
    ensures { result ≡ has_text text.now words_of_choices }
{
    text == "let" || text == "in" || text == "if" || text == "else"
}

fn is_of_activities(text: &str) -> bool
    ensures { result ≡ has_text text.now words_of_activities }
{
    text == "repeat" || text == "active" || text == "serve" || text == "clone"
}

fn is_of_values(text: &str) -> bool
    ensures { result ≡ has_text text.now words_of_values }
{
    text == "print" || text == "echo" || text == "group" || text == "scatter"
}

fn is_of_groups(text: &str) -> bool
    ensures { result ≡ has_text text.now words_of_groups }
{
    text == "size" || text == "member" || text == "waitall" || text == "pending"
}
