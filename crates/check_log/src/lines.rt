// The answers as lines of text.
use log_rewrite::RewriteRefusal;
use log_writer::WriteRefusal;
use std::io::Write;
use text::Text;
use trap_log::{Entry, LogRefusal, Look, Section};

// To a question with a list that has no room.
pub fn no_row<W: Write>(out: &mut W) {
    let _ = out.write_all(b"no row\n");
}

pub fn read<W: Write>(out: &mut W, word: &[u8], answer: Result<usize, LogRefusal>) {
    let mut line = [0u8; 80];
    let mut text = Text::new(&mut line);
    text.append(word);
    log_text::read_line(&mut text, answer);
    let _ = out.write_all(text.written());
}

fn section_text(text: &mut Text<'_>, section: Option<Section>) {
    let Some(section) = section else {
        text.append(b"none");
        return;
    };
    text.append(b"whole");
    log_text::decimal_field(text, section.count as u64);
    log_text::decimal_field(text, section.end as u64);
}

fn entry_text(text: &mut Text<'_>, entry: Option<Entry>) {
    match entry {
        Some(Entry::Edition(edition)) => {
            text.append(b" edition");
            log_text::decimal_field(text, edition as u64);
        }
        Some(Entry::Syndrome(esr)) => {
            text.append(b" syndrome");
            log_text::hex_field(text, esr.0);
        }
        Some(Entry::Address { far, hpfar }) => {
            text.append(b" address");
            log_text::hex_field(text, far.0);
            log_text::hex_field(text, hpfar.0);
        }
        Some(Entry::Injection { injection, domain }) => {
            text.append(b" injection");
            log_text::decimal_field(text, injection as u64);
            log_text::decimal_field(text, domain as u64);
        }
        None => text.append(b" none"),
    }
}

pub fn look<W: Write>(out: &mut W, found: Look) {
    let mut line = [0u8; 160];
    let mut text = Text::new(&mut line);
    text.append(b"look ");
    section_text(&mut text, found.section);
    entry_text(&mut text, found.entry);
    text.append(b"\n");
    let _ = out.write_all(text.written());
}

// A byte, and how often it stands there in a row where that is more than once.
fn run<W: Write>(out: &mut W, byte: u8, times: usize) {
    let mut piece = [0u8; 32];
    let mut text = Text::new(&mut piece);
    log_text::hex_field(&mut text, byte as u64);
    if times != 1 {
        text.append(b"*");
        text.append_decimal(times as u64);
    }
    let _ = out.write_all(text.written());
}

// Whether the byte before a place is the last of its run.
fn ends_at(bytes: &[u8], at: usize) -> bool {
    if at == 0 {
        return true;
    }
    if bytes.len() <= at {
        return true;
    }
    bytes[at] != bytes[at - 1]
}

fn runs<W: Write>(out: &mut W, bytes: &[u8]) {
    let mut start = 0;
    for (i, byte) in bytes.iter().enumerate() {
        if ends_at(bytes, i + 1) {
            run(out, *byte, i + 1 - start);
            start = i + 1;
        }
    }
}

// A buffer, and the end of its line.
fn buffer<W: Write>(out: &mut W, bytes: &[u8]) {
    runs(out, bytes);
    let _ = out.write_all(b"\n");
}

pub fn written<W: Write>(out: &mut W, answer: Result<usize, WriteRefusal>, bytes: &[u8]) {
    let mut line = [0u8; 80];
    let mut text = Text::new(&mut line);
    text.append(b"write");
    log_text::decimal_field(&mut text, log_writer::number(answer) as u64);
    log_text::decimal_field(&mut text, log_writer::length_in(answer) as u64);
    let _ = out.write_all(text.written());
    buffer(out, bytes);
}

// The number, the section of refusal 13, and the length.
fn again_line<W: Write>(out: &mut W, number: u32, section: u32, length: usize) {
    let mut line = [0u8; 80];
    let mut text = Text::new(&mut line);
    text.append(b"again");
    log_text::decimal_field(&mut text, number as u64);
    log_text::decimal_field(&mut text, section as u64);
    log_text::decimal_field(&mut text, length as u64);
    let _ = out.write_all(text.written());
}

pub fn again<W: Write>(out: &mut W, answer: Result<usize, RewriteRefusal>, bytes: &[u8]) {
    match answer {
        Ok(length) => again_line(out, 0, 0, length),
        Err(RewriteRefusal::Unread(refusal)) => again_line(
            out,
            trap_log::number(Err(refusal)),
            trap_log::section_in(Err(refusal)),
            0,
        ),
        Err(RewriteRefusal::Unwritten(refusal)) => again_line(
            out,
            log_writer::number(Err(refusal)),
            0,
            0,
        ),
    }
    buffer(out, bytes);
}
