//! The records of a CSV text that has no double quote: those that `csv` defines for it. The text is cut in place, at its
//! line ends and commas.
#![tactic(auto)]

ghost use Rattle.std.specs.Prelude.{◌≡◌, ◌∷◌, ◌+◌, ◌++◌, ◌<◌, [], true, false, drop, length, map, position, take, IfOk, OnErr, OnOk, if◌then◌else◌};
ghost use Rattle.csv.specs.Reading.{default_config, records, strip_bom};
ghost use Rattle.plain_csv.specs.Plain.{ends_line, has_bytes, is_comma, is_plain, plain_fields, plain_records};
ghost use Rattle.plain_csv.specs.Progress.{found_and_left};

use std::alloc::{AllocError, Global};
use std::marker::Model;

/// Whether a text has no double quote.
pub fn is_plain(text: &[u8]) -> bool
    ensures { result ≡ is_plain text.now }
{
    !text.contains(&b'"')
}

/// The records of a text without a double quote, one after another.
#[derive(Drop)]
pub struct PlainRecords<'a> {
    rest: &'a [u8],
    fields: Vec<&'a [u8]>,
}

impl<'a> Model for PlainRecords<'a> {
    ghost use Rattle.std.specs.Prelude.{map};
    ghost use Rattle.plain_csv.specs.Plain.{plain_records};
    ghost use Rattle.plain_csv.specs.Progress.{Progress};

    ghost Value = { Progress };

    ghost view = { λ reader. record { fields = map (λ field. field.now) reader.fields.items; left = plain_records reader.rest.now } };
}

impl<'a> PlainRecords<'a> {
    /// All records of a text that has no double quote. A byte order mark at its start is no part of them.
    pub fn new(alloc: Global, text: &'a [u8]) -> PlainRecords<'a>
        requires { is_plain text.now ≡ true }
        ensures fields { result.fields ≡ [] }
        ensures left { result.left ≡ records default_config (strip_bom text.now) }
    {
        PlainRecords {
            rest: without_mark(text),
            fields: Vec::new(alloc),
        }
    }

    /// The fields of the record that was read last.
    pub fn fields(&self) -> &[&'a [u8]]
        ensures { map (λ field. field.now) result.now ≡ self.now.fields }
    {
        &self.fields
    }

    /// Reads the next record, and says whether there was one. After want of memory it is still to be read.
    pub fn next_record(&mut self) -> Result<bool, AllocError>
        ensures next { IfOk result (λ found. self.old.left ≡ found_and_left found self.new) }
        ensures none { IfOk result (λ found. found ≡ false → self.new ≡ record { fields = []; left = [] }) }
        ensures memory { OnErr result (self.new.left ≡ self.old.left) }
    {
        self.fields.clear();
        while !self.rest.is_empty() {
            let (line, rest) = first_line(self.rest);
            if !line.is_empty() {
                push_fields(&mut self.fields, line)?;
                self.rest = rest;
                return Ok(true);
            }
            self.rest = rest;
        }
        Ok(false)
    }
}

// The text without a byte order mark at its start.
fn without_mark(text: &[u8]) -> &[u8]
    ensures { result.now ≡ strip_bom text.now }
{
    match text.strip_prefix(&[0xEF, 0xBB, 0xBF]) {
        Some(rest) => rest,
        None => text,
    }
}

// The first line of a text, and what stands behind its end.
fn first_line(text: &[u8]) -> (&[u8], &[u8])
    ensures records { plain_records text.now ≡ (if has_bytes result.0.now then plain_fields result.0.now ∷ plain_records result.1.now else plain_records result.1.now) }
    ensures shorter { has_bytes text.now ≡ true → length result.1.now < length text.now }
{
    match line_end(text) {
        Some(end) => cut(text, end),
        None => (text, &[]),
    }
}

// Where the first line of a text ends, if not with the text.
fn line_end(text: &[u8]) -> Option<usize>
    ensures { result ≡ position ends_line text.now }
{
    text.iter()
        .position(|byte| *byte == b'\r' || *byte == b'\n')
}

// Appends the fields of a line.
fn push_fields<'a>(fields: &mut Vec<&'a [u8]>, line: &'a [u8]) -> Result<(), AllocError>
    ensures { OnOk result (map (λ field. field.now) fields.new.items ≡ map (λ field. field.now) fields.old.items ++ plain_fields line.now) }
{
    let mut rest = line;
    while let Some(end) = field_end(rest) {
        let (field, more) = cut(rest, end);
        fields.push(field)?;
        rest = more;
    }
    fields.push(rest)?;
    Ok(())
}

// Where the first field of a line ends, if not with the line.
fn field_end(line: &[u8]) -> Option<usize>
    ensures { result ≡ position is_comma line.now }
{
    line.iter().position(|byte| *byte == b',')
}

// What stands before a place of a text, and what behind it.
fn cut(text: &[u8], at: usize) -> (&[u8], &[u8])
    requires { at < length text.now }
    ensures before { result.0.now ≡ take at text.now }
    ensures behind { result.1.now ≡ drop (at + 1) text.now }
{
    (&text[..at], &text[at + 1..])
}
