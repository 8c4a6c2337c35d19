//! Classes, and the numbers of their labels.

ghost use Rattle.std.specs.Prelude.{◌≡◌, IfOk};
ghost use Rattle.code_table.specs.Classes.{field_number, method_number};

use crate::class::Class;
use crate::code::MethodCode;
use crate::keys::{KeyedLabel, keys_of_fields, keys_of_methods, number_by_key};
use crate::numbers::{number_fields, number_methods};
use asp_model::Label;
use std::alloc::{AllocError, Global};

impl Class {
    /// The class with these fields and methods. `AllocError` is the only error.
    pub fn new(
        alloc: Global,
        fields: Vec<Label>,
        methods: Vec<MethodCode>,
    ) -> Result<Class, AllocError>
        ensures fields { IfOk result (λ k. k.fields ≡ fields) }
        ensures methods { IfOk result (λ k. k.methods ≡ methods) }
    {
        let field_keys = keys_of_fields(alloc, &fields)?;
        let method_keys = keys_of_methods(alloc, &methods)?;
        let field_numbers = number_fields(alloc, &fields)?;
        let method_numbers = number_methods(alloc, &methods)?;
        Ok(Class {
            fields,
            methods,
            field_keys,
            method_keys,
            field_numbers,
            method_numbers,
        })
    }

    /// The number of the first field with this label. Many fields are searched, not walked.
    pub fn field(&self, label: &Label) -> Option<usize>
        ensures number { result ≡ field_number label.now.text self.now }
    {
        match &self.field_numbers {
            Some(numbers) => numbers.number(label),
            None => self.walk_fields(label),
        }
    }

    /// The number of the first method with this label. Many methods are searched, not walked.
    pub fn method(&self, label: &Label) -> Option<usize>
        ensures number { result ≡ method_number label.now.text self.now }
    {
        match &self.method_numbers {
            Some(numbers) => numbers.number(label),
            None => self.walk_methods(label),
        }
    }

    /// The number of the first field with this label. A few fields are compared by their keys, if
    /// the label has one.
    #[inline(always)]
    pub fn field_keyed(&self, label: &KeyedLabel) -> Option<usize>
        ensures number { result ≡ field_number label.now.label.text self.now }
    {
        match &self.field_numbers {
            Some(numbers) => numbers.number(label.label.as_label()),
            None => self.few_fields(label),
        }
    }

    /// The number of the first method with this label. A few methods are compared by their keys, if
    /// the label has one.
    #[inline(always)]
    pub fn method_keyed(&self, label: &KeyedLabel) -> Option<usize>
        ensures number { result ≡ method_number label.now.label.text self.now }
    {
        match &self.method_numbers {
            Some(numbers) => numbers.number(label.label.as_label()),
            None => self.few_methods(label),
        }
    }

    #[inline(always)]
    fn few_fields(&self, label: &KeyedLabel) -> Option<usize>
        ensures number { result ≡ field_number label.now.label.text self.now }
    {
        let key = label.key;
        if key == 0 {
            return self.walk_fields(label.label.as_label());
        }
        number_by_key(&self.field_keys, key)
    }

    #[inline(always)]
    fn few_methods(&self, label: &KeyedLabel) -> Option<usize>
        ensures number { result ≡ method_number label.now.label.text self.now }
    {
        let key = label.key;
        if key == 0 {
            return self.walk_methods(label.label.as_label());
        }
        number_by_key(&self.method_keys, key)
    }

    fn walk_fields(&self, label: &Label) -> Option<usize>
        ensures number { result ≡ field_number label.now.text self.now }
    {
        for i in 0..self.fields.len() {
            if label.text == self.fields[i].text {
                return Some(i);
            }
        }
        None
    }

    fn walk_methods(&self, label: &Label) -> Option<usize>
        ensures number { result ≡ method_number label.now.text self.now }
    {
        for i in 0..self.methods.len() {
            if label.text == self.methods[i].label.text {
                return Some(i);
            }
        }
        None
    }
}
