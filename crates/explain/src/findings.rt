//! What is wrong with a program: its first fault, or its warnings.

ghost use Rattle.std.specs.Prelude.{◌≡◌, [], ◌∷◌, IfOk, Option};
ghost use Rattle.asp_model.specs.Shapes.{marked_of};
ghost use Rattle.syntax_grammar.specs.Programs.{IsProgramText};
ghost use Rattle.asp_check.specs.Faults.{IsChecked};
ghost use Rattle.explain.specs.declared.findings.Fault.{Fault};
ghost use Rattle.explain.specs.Found.{IsCheckFault, IsFaultless, IsFound, IsOnlyProgram, IsShownFirst, IsSyntaxFault};
ghost use Rattle.explain.specs.declared.remark.Severity.TheVariants.{Error};

use crate::around::{name_at, short_name_at, tokens_round};
use crate::cures::{check_cure, syntax_cure};
use crate::other::seen_in;
use crate::remark::{Remark, Severity};
use crate::sentences::{check_sentence, other_sentence, syntax_sentence};
use crate::uses::{LabelUse, uses_in};
use crate::warnings::warnings_of;
use asp_check::{CheckError, CheckFault, CheckKind, check};
use asp_model::Program;
use asp_syntax::{SyntaxError, SyntaxFault, read_program};
use std::alloc::{AllocError, Global};

/// Why a text is refused.
#[derive(Clone, Copy)]
pub enum Fault {
    /// It is no program.
    Syntax(SyntaxFault),
    /// It is a program that is not checked.
    Check(CheckFault),
}

/// What there is to tell of a text.
#[derive(Drop)]
pub struct Findings {
    /// The first fault, if it has one.
    pub fault: Option<Fault>,
    /// The fault and what it is at odds with, or the first 20 warnings.
    pub remarks: Vec<Remark>,
    /// How many warnings there are.
    pub warnings: usize,
}

/// What there is to tell of a text: its first fault, which comes first among the remarks, or the
/// warnings of a checked program.
pub fn explain(alloc: Global, bytes: &[u8]) -> Result<Findings, AllocError>
    ensures found { IfOk result (λ f. IsFound bytes.now f.fault) }
    ensures first { IfOk result (λ f. IsShownFirst f.fault f.remarks.items) }
{
    match read_program(alloc, bytes) {
        Ok(program) => of_program(alloc, bytes, program),
        Err(SyntaxError::Fault(fault)) => of_syntax(alloc, bytes, fault),
        Err(SyntaxError::Memory) => Err(AllocError),
    }
}

// Of a text that is no program.
fn of_syntax(alloc: Global, bytes: &[u8], fault: SyntaxFault) -> Result<Findings, AllocError>
    requires fault { IsSyntaxFault bytes.now fault }
    ensures found { IfOk result (λ f. IsFound bytes.now f.fault) }
    ensures first { IfOk result (λ f. IsShownFirst f.fault f.remarks.items) }
{
    let around = tokens_round(alloc, bytes, fault.at)?;
    let cure = syntax_cure(fault.kind, bytes, &around);
    let sentence = syntax_sentence(alloc, fault.kind, bytes, &around)?;
    let remark = error_at(fault.at, sentence, cure);
    Ok(Findings {
        fault: Some(Fault::Syntax(fault)),
        remarks: one(alloc, remark)?,
        warnings: 0,
    })
}

fn error_at(at: usize, sentence: String, cure: Option<&'static str>) -> Remark
    ensures place { result.at ≡ at }
    ensures severity { result.severity ≡ Error }
{
    Remark {
        at,
        severity: Severity::Error,
        sentence,
        cure,
    }
}

fn one(alloc: Global, remark: Remark) -> Result<Vec<Remark>, AllocError>
    ensures { IfOk result (λ v. v.items ≡ remark ∷ []) }
{
    let mut remarks = Vec::new(alloc);
    remarks.push(remark)?;
    Ok(remarks)
}

// Of a text that is a program. Its labels are found first: the check drops a program that has a fault.
fn of_program(alloc: Global, bytes: &[u8], program: Program) -> Result<Findings, AllocError>
    requires program { IsProgramText bytes.now (marked_of program.root) }
    requires only { IsOnlyProgram bytes.now (marked_of program.root) }
    ensures found { IfOk result (λ f. IsFound bytes.now f.fault) }
    ensures first { IfOk result (λ f. IsShownFirst f.fault f.remarks.items) }
{
    let uses = uses_in(alloc, &program.root);
    match check(alloc, program) {
        Ok(checked) => {
            drop(checked);
            of_checked(alloc, bytes, &uses?)
        }
        Err(CheckError::Fault(fault)) => of_check(alloc, bytes, &uses?, fault),
        Err(CheckError::Memory) => Err(AllocError),
    }
}

// Of a checked program with these labels.
fn of_checked(alloc: Global, bytes: &[u8], uses: &[LabelUse]) -> Result<Findings, AllocError>
    requires faultless { IsFaultless bytes.now }
    ensures found { IfOk result (λ f. IsFound bytes.now f.fault) }
    ensures first { IfOk result (λ f. IsShownFirst f.fault f.remarks.items) }
{
    let warnings = warnings_of(alloc, bytes, uses)?;
    Ok(Findings {
        fault: None,
        remarks: warnings.remarks,
        warnings: warnings.count,
    })
}

// Of a program with these labels that has a fault.
fn of_check(
    alloc: Global,
    bytes: &[u8],
    uses: &[LabelUse],
    fault: CheckFault,
) -> Result<Findings, AllocError>
    requires fault { IsCheckFault bytes.now fault }
    ensures found { IfOk result (λ f. IsFound bytes.now f.fault) }
    ensures first { IfOk result (λ f. IsShownFirst f.fault f.remarks.items) }
{
    let seen = seen_in(bytes, uses, fault);
    let name = short_name_at(bytes, fault.at);
    let cure = check_cure(fault.kind, name, seen.is_field);
    let sentence = check_sentence(alloc, fault.kind, name, seen.count)?;
    let remarks = one(alloc, error_at(fault.at, sentence, cure))?;
    Ok(Findings {
        fault: Some(Fault::Check(fault)),
        remarks: with_other(alloc, bytes, remarks, fault.kind, seen.other)?,
        warnings: 0,
    })
}

// The remarks, and the other place of a fault behind them.
fn with_other(
    alloc: Global,
    bytes: &[u8],
    remarks: Vec<Remark>,
    kind: CheckKind,
    other: Option<LabelUse>,
) -> Result<Vec<Remark>, AllocError>
    ensures { (f : Option Fault) → IsShownFirst f remarks.items
        → IfOk result (λ v. IsShownFirst f v.items) }
{
    let mut remarks = remarks;
    if let Some(other) = other {
        let sentence = other_sentence(alloc, kind, name_at(bytes, other.at), other.count)?;
        remarks.push(Remark {
            at: other.at,
            severity: Severity::Note,
            sentence,
            cure: None,
        })?;
    }
    Ok(remarks)
}
