//! Copies of labels and names.

ghost use Rattle.std.specs.Prelude.{◌≡◌, IfOk, map};
ghost use Rattle.std.specs.Option.{option_map};
ghost use Rattle.code_table.specs.Tables.{text_of};

use asp_model::{Label, Word};
use code_table::SharedLabel;
use std::alloc::{AllocError, Global};

pub fn copy_words(alloc: Global, words: &[Word]) -> Result<Vec<Word>, AllocError>
    ensures same { IfOk result (λ r. r.items ≡ words.now) }
{
    let mut copies = Vec::new(alloc);
    for word in words {
        copies.push(word.copy(alloc)?)?;
    }
    Ok(copies)
}

pub fn copy_labels(alloc: Global, labels: &[Label]) -> Result<Vec<Label>, AllocError>
    ensures same { IfOk result (λ r. map text_of r.items ≡ map text_of labels.now) }
{
    let mut copies = Vec::new(alloc);
    for label in labels {
        copies.push(label.copy(alloc)?)?;
    }
    Ok(copies)
}

pub fn copy_service(
    alloc: Global,
    service: &Option<SharedLabel>,
) -> Result<Option<Label>, AllocError>
    ensures same { IfOk result (λ r. option_map text_of r ≡ option_map text_of service.now) }
{
    match service {
        Some(label) => Ok(Some(label.as_label().copy(alloc)?)),
        None => Ok(None),
    }
}
