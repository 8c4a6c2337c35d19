//! Classes of objects.

ghost use Rattle.std.specs.Prelude.{◌≡◌, map};
ghost use Rattle.code_table.specs.Keys.{text_key};
ghost use Rattle.code_table.specs.Numbers.{HaveNumbers};

use crate::code::MethodCode;
use crate::numbers::Numbers;
use asp_model::Label;

/// What the objects that one node makes have in common.
#[derive(Drop)]
pub struct Class {
    pub fields: Vec<Label>,
    pub methods: Vec<MethodCode>,
    // The keys of the labels.
    pub(crate) field_keys: Vec<u64>,
    pub(crate) method_keys: Vec<u64>,
    // The numbers of the labels, where these are many.
    pub(crate) field_numbers: Option<Numbers>,
    pub(crate) method_numbers: Option<Numbers>,
    ghost fields_keyed: { field_keys.items ≡ map (λ l. text_key l.text) fields.items },
    ghost methods_keyed: { method_keys.items ≡ map (λ m. text_key m.label.text) methods.items },
    ghost fields_numbered: { HaveNumbers (map (λ l. l.text) fields.items) field_numbers },
    ghost methods_numbered: { HaveNumbers (map (λ m. m.label.text) methods.items) method_numbers },
}
