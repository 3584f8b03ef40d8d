//! What a check finds, and how it is written.
ghost use Rattle.std.specs.Prelude.{◌≡◌, ◌++◌, IfOk, OnOk, codes, map, string_bytes};
ghost use Rattle.std.specs.List.{list_any};
ghost use Rattle.table_pictures.specs.Escape.{pictured_text};
ghost use Rattle.lrshow_check.specs.Findings.{elements_json, finding_json, finding_line, finding_view, findings_json, findings_output, findings_status, findings_text, more_json, severity};

use lalrpop_base::memory::OutOfMemory;
use std::alloc::Global;
use table_data::to_json::{push_number, push_quoted};
use table_pictures::escape::push_visible;

/// An error or a warning.
#[derive(Drop)]
pub(crate) struct Finding {
    pub(crate) is_error: bool,
    /// The number of the line, from 1.
    pub(crate) line: usize,
    /// One more than the number of characters before the place in its line.
    pub(crate) column: usize,
    /// The offset in bytes of the place in the text.
    pub(crate) start: usize,
    /// The offset in bytes of what comes after the place.
    pub(crate) end: usize,
    /// What is wrong or doubtful.
    pub(crate) what: String,
    /// A way out.
    pub(crate) hint: String,
}

// How bad a finding is.
fn severity(is_error: bool) -> &'static str
    ensures { result.now ≡ severity is_error }
{
    if is_error { "error" } else { "warning" }
}

/// The status of a check: 2 if there is an error, else 1 if there is a warning, and else 0.
pub(crate) fn findings_status(findings: &[Finding]) -> u8
    ensures { result ≡ findings_status (map finding_view findings.now) }
{
    if has_error(findings) {
        return 2;
    }
    if findings.is_empty() {
        return 0;
    }
    1
}

// Whether one of the findings is an error.
fn has_error(findings: &[Finding]) -> bool
    ensures { result ≡ list_any (λ f. f.is_error) (map finding_view findings.now) }
{
    for finding in findings {
        if finding.is_error {
            return true;
        }
    }
    false
}

/// Findings as JSON, or as a text with the name of the file. `OutOfMemory` if an allocation fails.
pub(crate) fn findings_output(
    alloc: Global,
    is_json: bool,
    name: &str,
    findings: &[Finding],
) -> Result<String, OutOfMemory>
    ensures { IfOk result (λ text. string_bytes text
        ≡ findings_output is_json name.now (map finding_view findings.now)) }
{
    if is_json {
        return findings_json(alloc, findings);
    }
    findings_text(alloc, name, findings)
}

// Findings as a text, a line for each.
fn findings_text(alloc: Global, name: &str, findings: &[Finding]) -> Result<String, OutOfMemory>
    ensures { IfOk result (λ text. string_bytes text
        ≡ findings_text name.now (map finding_view findings.now)) }
{
    let mut text = String::new(alloc);
    for finding in findings {
        push_line(&mut text, name, finding)?;
    }
    Ok(text)
}

// Appends the line of a finding.
fn push_line(text: &mut String, name: &str, finding: &Finding) -> Result<(), OutOfMemory>
    ensures { OnOk result (string_bytes text.new
        ≡ string_bytes text.old ++ finding_line name.now (finding_view finding.now)) }
{
    let (line, column) = (finding.line, finding.column);
    let severity = severity(finding.is_error);
    write!(text, "{name}:{line}:{column}: {severity}: ")?;
    push_visible(text, finding.what.as_str())?;
    text.push_str("; ")?;
    push_visible(text, finding.hint.as_str())?;
    text.push_str("\n")?;
    Ok(())
}

// Findings as an array of JSON.
fn findings_json(alloc: Global, findings: &[Finding]) -> Result<String, OutOfMemory>
    ensures { IfOk result (λ text. string_bytes text
        ≡ findings_json (map finding_view findings.now)) }
{
    let mut text = String::new(alloc);
    text.push_str("[")?;
    push_elements(alloc, &mut text, findings)?;
    text.push_str("]\n")?;
    Ok(text)
}

// Appends the elements of an array.
fn push_elements(alloc: Global, text: &mut String, findings: &[Finding]) -> Result<(), OutOfMemory>
    ensures { OnOk result (string_bytes text.new
        ≡ string_bytes text.old ++ elements_json (map finding_view findings.now)) }
{
    match findings.split_first() {
        None => Ok(()),
        Some((first, rest)) => {
            push_finding(alloc, text, first)?;
            push_more(alloc, text, rest)?;
            Ok(())
        }
    }
}

// Appends the elements after the first one.
fn push_more(alloc: Global, text: &mut String, findings: &[Finding]) -> Result<(), OutOfMemory>
    ensures { OnOk result (string_bytes text.new
        ≡ string_bytes text.old ++ more_json (map finding_view findings.now)) }
{
    for finding in findings {
        text.push_str(",\n")?;
        push_finding(alloc, text, finding)?;
    }
    Ok(())
}

// Appends a finding as an object.
fn push_finding(alloc: Global, text: &mut String, finding: &Finding) -> Result<(), OutOfMemory>
    ensures { OnOk result (string_bytes text.new
        ≡ string_bytes text.old ++ finding_json (finding_view finding.now)) }
{
    text.push_str("{\"severity\":\"")?;
    text.push_str(severity(finding.is_error))?;
    push_number(text, "\",\"line\":", finding.line)?;
    push_number(text, ",\"column\":", finding.column)?;
    push_number(text, ",\"start\":", finding.start)?;
    push_number(text, ",\"end\":", finding.end)?;
    text.push_str(",\"message\":")?;
    push_quoted(alloc, text, finding.what.as_str())?;
    text.push_str(",\"hint\":")?;
    push_quoted(alloc, text, finding.hint.as_str())?;
    text.push_str("}")?;
    Ok(())
}
