//! The text of a remark.

ghost use Rattle.std.specs.Prelude.{◌≡◌, ◌≤◌, ◌++◌, length, map, IfOk, OnOk, option_map, string_bytes};
ghost use Rattle.std.specs.List.{position_or_len};
ghost use Rattle.text_places.specs.Positions.{is_feed, lead as lead_of, tail as tail_of};
ghost use Rattle.explain.specs.Remarks.{blank as blank_below, cure_line, excerpt, glyph as glyph_of, heading as heading_of, severity_text as text_of_severity, shown as shown_byte};
ghost use Rattle.explain.specs.Texts.{text_of as whole_text};

use crate::remark::{Remark, Severity};
use std::alloc::{AllocError, Global};
use text_places::{Position, position_of, spot_of};

// What is shown of a line, before the place and from it on.
const LEAD: usize = 80;

const TAIL: usize = 80;

/// The text of a remark on a file: a line with the place and the sentence, the line of the file
/// with a caret below the place, and a cure where there is one. What a terminal would not print is
/// `?`.
pub fn text_of(
    alloc: Global,
    file: &str,
    bytes: &[u8],
    remark: &Remark,
) -> Result<Vec<u8>, AllocError>
    ensures text { IfOk result (λ v. v.items ≡ whole_text file.now bytes.now remark.now) }
{
    let place = position_of(bytes, remark.at);
    let severity = severity_text(remark.severity);
    let heading = heading(alloc, file, place, severity, remark.sentence.as_str())?;
    let mut text = heading.into_bytes();
    add_excerpt(&mut text, lead(bytes, remark.at), tail(bytes, remark.at))?;
    add_cure(&mut text, remark.cure)?;
    Ok(text)
}

fn severity_text(severity: Severity) -> &'static str
    ensures { result.now ≡ text_of_severity severity }
{
    match severity {
        Severity::Error => "error",
        Severity::Warning => "warning",
        Severity::Note => "note",
    }
}

// A place and a sentence.
fn heading(
    alloc: Global,
    file: &str,
    place: Position,
    severity: &str,
    sentence: &str,
) -> Result<String, AllocError>
    ensures { IfOk result (λ s. string_bytes s
        ≡ heading_of file.now place severity.now sentence.now) }
{
    let Position { line, column } = place;
    format!(in alloc; "{file}:{line}:{column}: {severity}: {sentence}\n")
}

// The last bytes before the place in its line.
fn lead(bytes: &[u8], at: usize) -> &[u8]
    ensures { result.now ≡ lead_of 80 bytes.entry.now at }
{
    let spot = spot_of(bytes, at);
    let count = (spot.at - spot.begin).min(LEAD);
    &bytes[spot.at - count..spot.at]
}

// The first bytes from the place on in its line.
fn tail(bytes: &[u8], at: usize) -> &[u8]
    ensures { result.now ≡ tail_of 80 bytes.entry.now at }
{
    let rest = &bytes[at.min(bytes.len())..];
    let count = line_end(rest).min(TAIL);
    &rest[..count]
}

// Where the first line of a text ends.
fn line_end(bytes: &[u8]) -> usize
    ensures end { result ≡ position_or_len is_feed bytes.now }
    ensures within { result ≤ length bytes.now }
{
    let mut end = 0;
    while end < bytes.len() && bytes[end] != b'\n' {
        end += 1;
    }
    end
}

fn shown(byte: u8) -> u8
    ensures { result ≡ shown_byte byte }
{
    if byte == b'\t' || (32 <= byte && byte <= 126) {
        byte
    } else if byte == b'\r' {
        b' '
    } else {
        b'?'
    }
}

fn blank(byte: u8) -> u8
    ensures { result ≡ blank_below byte }
{
    if byte == b'\t' { b'\t' } else { b' ' }
}

// A byte as it is shown, or the blank below it.
fn glyph(byte: u8, is_below: bool) -> u8
    ensures { result ≡ glyph_of is_below byte }
{
    if is_below { blank(byte) } else { shown(byte) }
}

fn add_glyphs(text: &mut Vec<u8>, bytes: &[u8], is_below: bool) -> Result<(), AllocError>
    ensures { OnOk result (text.new.items ≡ text.old.items ++ map (glyph_of is_below) bytes.now) }
{
    for byte in bytes {
        text.push(glyph(*byte, is_below))?;
    }
    Ok(())
}

// The line, and the caret below the place.
fn add_excerpt(text: &mut Vec<u8>, lead: &[u8], tail: &[u8]) -> Result<(), AllocError>
    ensures { OnOk result (text.new.items ≡ text.old.items ++ excerpt lead.now tail.now) }
{
    text.extend_from_slice(b"    ")?;
    add_glyphs(text, lead, false)?;
    add_glyphs(text, tail, false)?;
    text.extend_from_slice(b"\n    ")?;
    add_glyphs(text, lead, true)?;
    text.extend_from_slice(b"^\n")?;
    Ok(())
}

fn add_cure(text: &mut Vec<u8>, cure: Option<&'static str>) -> Result<(), AllocError>
    ensures { let told = option_map (λ s. s.now) cure.entry in
        OnOk result (text.new.items ≡ text.old.items ++ cure_line told) }
{
    if let Some(cure) = cure {
        text.extend_from_slice(b"  help: ")?;
        text.extend_from_slice(cure.as_bytes())?;
        text.extend_from_slice(b"\n")?;
    }
    Ok(())
}
