//! All that is told of a file.

ghost use Rattle.std.specs.Prelude.{◌≡◌, ◌++◌, IfOk, OnOk, option_map, string_bytes};
ghost use Rattle.explain.specs.Told.{IsTold, closing as closing_of, no_fault_line, texts_of, warnings_text as text_of_warnings};

use crate::findings::{Fault, Findings, explain};
use crate::remark::Remark;
use crate::shown::text_of;
use std::alloc::{AllocError, Global};

/// What is told of a file, and its fault.
#[derive(Drop)]
pub struct Told {
    pub fault: Option<Fault>,
    pub text: Vec<u8>,
}

/// What is told of a file: its first fault, or its warnings and that it has no fault.
pub fn tell(alloc: Global, file: &str, bytes: &[u8]) -> Result<Told, AllocError>
    ensures told { IfOk result (λ t. IsTold file.now bytes.now t.fault t.text.items) }
{
    let findings = explain(alloc, bytes)?;
    let text = whole_text(alloc, file, bytes, &findings)?;
    Ok(Told {
        fault: findings.fault,
        text,
    })
}

fn whole_text(
    alloc: Global,
    file: &str,
    bytes: &[u8],
    findings: &Findings,
) -> Result<Vec<u8>, AllocError>
    ensures { IfOk result (λ v. v.items ≡ texts_of file.now bytes.now findings.now.remarks.items
        ++ closing_of file.now findings.now.fault findings.now.warnings) }
{
    let mut text = Vec::new(alloc);
    add_remarks(alloc, &mut text, file, bytes, &findings.remarks)?;
    let closing = closing(alloc, file, findings)?;
    text.extend_from_slice(closing.as_bytes())?;
    Ok(text)
}

fn add_remarks(
    alloc: Global,
    text: &mut Vec<u8>,
    file: &str,
    bytes: &[u8],
    remarks: &[Remark],
) -> Result<(), AllocError>
    ensures { OnOk result (text.new.items
        ≡ text.old.items ++ texts_of file.now bytes.now remarks.now) }
{
    for remark in remarks {
        let more = text_of(alloc, file, bytes, remark)?;
        text.extend_from_slice(&more)?;
    }
    Ok(())
}

// What is said of a file without a fault.
fn closing(alloc: Global, file: &str, findings: &Findings) -> Result<String, AllocError>
    ensures { IfOk result (λ s. string_bytes s
        ≡ closing_of file.now findings.now.fault findings.now.warnings) }
{
    match findings.fault {
        Some(_) => Ok(String::new(alloc)),
        None => {
            let warnings = warnings_text(alloc, findings.warnings)?;
            no_fault(alloc, file, warnings.as_str())
        }
    }
}

fn no_fault(alloc: Global, file: &str, warnings: &str) -> Result<String, AllocError>
    ensures { IfOk result (λ s. string_bytes s ≡ no_fault_line file.now warnings.now) }
{
    format!(in alloc; "{file}: no fault{warnings}\n")
}

fn warnings_text(alloc: Global, count: usize) -> Result<String, AllocError>
    ensures { IfOk result (λ s. string_bytes s ≡ text_of_warnings count) }
{
    if count == 0 {
        Ok(String::new(alloc))
    } else {
        format!(in alloc; ", warnings: {count}")
    }
}
