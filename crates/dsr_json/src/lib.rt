//! Answers as JSON documents.
#![tactic(auto)]

ghost use Rattle.std.specs.Prelude.{◌≡◌};
ghost use Rattle.dsr_json.specs.Verdicts.{verdict_text};

use dsr_ir::NoMemory;
use dsr_script::{Status, Verdict};
use serde_json::{Value, json};
use std::alloc::{AllocError, Global};

// The name of a status.
fn verdict_of(status: &Status) -> &'static str
    ensures { result.now ≡ verdict_text status.now }
{
    match status {
        Status::Said(Verdict::Ok) => "ok",
        Status::Said(Verdict::Inconsistent) => "inconsistent",
        Status::Said(Verdict::PlanRefused) => "no plan",
        Status::Said(Verdict::Usage) => "usage",
        Status::Said(Verdict::SpecRefused) => "specification refused",
        Status::Said(Verdict::LayoutRefused) => "no layout",
        Status::Said(Verdict::SupplyEmpty) => "supply empty",
        Status::StoreFailed => "store failed",
        Status::OutputFailed => "output failed",
        Status::TooLong => "too long",
        Status::NoMemory => "no memory",
        Status::Said(Verdict::CertRefused) => "certificate refused",
        Status::Said(Verdict::ReportRefused) => "report refused",
        Status::Said(Verdict::EditRefused) => "edit refused",
    }
}

fn text_value(alloc: Global, text: &str) -> Result<Value, AllocError> {
    Ok(Value::String(text.to_string(alloc)?))
}

// The words of a line.
fn words_value(alloc: Global, line: &str) -> Result<Value, AllocError> {
    let mut words = Vec::new(alloc);
    for word in line.split(' ').filter(|word| !word.is_empty()) {
        words.push(text_value(alloc, word)?)?;
    }
    Ok(Value::Array(words))
}

// The lines of an answer, each as its words.
fn answer_value(alloc: Global, text: &str) -> Result<Value, AllocError> {
    let mut lines = Vec::new(alloc);
    for line in text.lines() {
        lines.push(words_value(alloc, line)?)?;
    }
    Ok(Value::Array(lines))
}

// The lines that are told.
fn told_value(alloc: Global, text: &str) -> Result<Value, AllocError> {
    let mut lines = Vec::new(alloc);
    for line in text.lines() {
        lines.push(text_value(alloc, line)?)?;
    }
    Ok(Value::Array(lines))
}

// What stands behind a command.
fn arguments_value(alloc: Global, words: &[String]) -> Result<Value, AllocError> {
    let mut arguments = Vec::new(alloc);
    for word in words.iter().skip(1) {
        arguments.push(text_value(alloc, word.as_str())?)?;
    }
    Ok(Value::Array(arguments))
}

/// An answer as one document: the command with its arguments, the status with its name, the lines of
/// the answer as lists of words, and the lines that are told of it.
pub fn document(
    alloc: Global,
    words: &[String],
    status: &Status,
    answer: &str,
    told: &str,
) -> Result<String, NoMemory> {
    let command = match words.first() {
        Some(command) => command.as_str(),
        None => "",
    };
    let arguments = arguments_value(alloc, words)?;
    let lines = answer_value(alloc, answer)?;
    let told = told_value(alloc, told)?;
    let number = status.number();
    let verdict = verdict_of(status);
    let document = json!(in alloc; {
        "command": command,
        "arguments": arguments,
        "status": number,
        "verdict": verdict,
        "answer": lines,
        "told": told
    })?;
    Ok(document.to_string(alloc)?)
}
