//! Keys of labels: numbers that tell short labels apart, so that few texts are compared.

ghost use Rattle.std.specs.Prelude.{◌≡◌, IfOk, map};
ghost use Rattle.code_table.specs.Keys.{key_number, keys_before, longer, text_key};

use crate::code::MethodCode;
use crate::labels::SharedLabel;
use asp_model::{Label, Word};
use std::alloc::{AllocError, Global};

/// The key of a text, or 0 if it is too long for one.
pub fn text_key(text: &Word) -> u64
    ensures key { result ≡ text_key text.now }
{
    let bytes = text.as_str().as_bytes();
    let mut key = 1;
    for i in (0..bytes.len()).rev() {
        key = longer(bytes[i] as u64, key);
    }
    key
}

fn longer(byte: u64, key: u64) -> u64
    ensures key { result ≡ longer byte key }
{
    if byte >= 256 {
        return 0;
    }
    if key == 0 {
        return 0;
    }
    if key >= 1 << 55 {
        return 0;
    }
    256 * key + byte
}

/// A label with its key.
#[derive(Drop)]
pub struct KeyedLabel {
    pub label: SharedLabel,
    pub key: u64,
    ghost keyed: { key ≡ text_key label.text },
}

impl KeyedLabel {
    pub fn new(label: SharedLabel) -> KeyedLabel
        ensures label { result.label ≡ label }
    {
        let key = text_key(&label.as_label().text);
        KeyedLabel { label, key }
    }
}

/// The keys of the labels of fields.
pub(crate) fn keys_of_fields(alloc: Global, fields: &[Label]) -> Result<Vec<u64>, AllocError>
    ensures keys { IfOk result (λ ks. ks.items ≡ map (λ l. text_key l.text) fields.now) }
{
    let mut keys = Vec::new(alloc);
    for field in fields {
        keys.push(text_key(&field.text))?;
    }
    Ok(keys)
}

/// The keys of the labels of methods.
pub(crate) fn keys_of_methods(alloc: Global, methods: &[MethodCode]) -> Result<Vec<u64>, AllocError>
    ensures keys { IfOk result (λ ks. ks.items ≡ map (λ m. text_key m.label.text) methods.now) }
{
    let mut keys = Vec::new(alloc);
    for method in methods {
        keys.push(text_key(&method.label.text))?;
    }
    Ok(keys)
}

/// How many keys stand before the first that is this one.
#[inline(always)]
fn keys_before(keys: &[u64], key: u64) -> usize
    ensures { result ≡ keys_before keys.now key }
{
    let mut number = 0;
    while number < keys.len() {
        if keys[number] == key {
            return number;
        }
        number += 1;
    }
    number
}

/// The number of the first key that is this one.
#[inline(always)]
pub(crate) fn number_by_key(keys: &[u64], key: u64) -> Option<usize>
    ensures number { result ≡ key_number keys.now key }
{
    let number = keys_before(keys, key);
    if number < keys.len() {
        Some(number)
    } else {
        None
    }
}
