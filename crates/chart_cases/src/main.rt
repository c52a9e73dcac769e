//! The chart reader and the chart writer on chart P of standard input, which has some small letters: there and back, which gives capitals,
//! then one edit of it after the other.
//! Each call prints a frame: 00 for the reader and 01 for the writer, the number or 00, the index, the count, and how many bytes of the
//! lent buffer changed, which the first two calls leave out.
#![tactic(auto)]

use edits::{patch, report};

// How many bytes of a buffer are not 170, which no record and no character here is.
fn changed(out: &[u8]) -> usize {
    let mut n: usize = 0;
    for i in 0..out.len() {
        if out[i] != 170 {
            n += 1;
        }
    }
    n
}

fn read_into(text: &[u8], out: &mut [u8]) {
    let answer = chart_text::read_chart(text, out);
    report(0, answer, changed(out));
}

fn write_into(records: &[u8], out: &mut [u8]) {
    let answer = chart_text::write_chart(records, out);
    report(1, answer, changed(out));
}

fn read(text: &[u8]) {
    let mut out = [170u8; 2560];
    read_into(text, &mut out);
}

fn write(records: &[u8]) {
    let mut out = [170u8; 5888];
    write_into(records, &mut out);
}

fn read_front(text: &[u8], n: usize) {
    if n <= text.len() {
        let start = 0;
        read(&text[start..n]);
    }
}

fn write_front(records: &[u8], n: usize) {
    if n <= records.len() {
        let start = 0;
        write(&records[start..n]);
    }
}

// The text, edited, is read.
fn text_case(text: [u8; 161], edits: &[u8]) {
    let mut edited = text;
    patch(&mut edited, edits);
    read(&edited);
}

// The records, edited, are written, and what their frames are is read.
fn record_case(records: [u8; 70], edits: &[u8]) {
    let mut edited = records;
    patch(&mut edited, edits);
    write(&edited);
    let mut text = [0u8; 161];
    text::frames::put_text(&mut text, 0, &edited);
    read(&text);
}

// The same under each edit by itself.
fn record_each(records: [u8; 70], edits: &[u8]) {
    let n = edits.len() / 2;
    for i in 0..n {
        let from = 2 * i;
        let to = from + 2;
        record_case(records, &edits[from..to]);
    }
}

// 1: nothing, one too few, one frame too many. A frame too few leaves an arc to no node.
fn lengths(text: &[u8], records: &[u8]) {
    read_front(text, 0);
    read_front(text, 160);
    read_front(text, 138);
    let many = [48u8; 5911];
    read(&many);
    write_front(records, 0);
    write_front(records, 69);
    write_front(records, 60);
    let more = [0u8; 2570];
    write(&more);
}

// 16: one byte too few, and just enough.
fn rooms(text: &[u8], records: &[u8]) {
    let mut short = [170u8; 69];
    read_into(text, &mut short);
    let mut enough = [170u8; 70];
    read_into(text, &mut enough);
    let mut brief = [170u8; 160];
    write_into(records, &mut brief);
    let mut full = [170u8; 161];
    write_into(records, &mut full);
}

// 2 and 3: a letter after f, a line feed gone, a wrong sum.
fn texts(text: [u8; 161]) {
    text_case(text, &[159, 103]);
    text_case(text, &[160, 32]);
    text_case(text, &[0, 71]);
    text_case(text, &[159, 52]);
}

// Two faults of 2 and 3 at once.
fn two_faults(text: [u8; 161]) {
    text_case(text, &[24, 51, 160, 32]);
    text_case(text, &[47, 103, 116, 103]);
    text_case(text, &[24, 51, 159, 52]);
    text_case(text, &[1, 53, 21, 57]);
    text_case(text, &[1, 53, 21, 57, 159, 52]);
}

// Sums in small letters and in both sizes; a small letter that makes a sum wrong; and three characters that are no digits: the
// backquote, and a 3 with another bit of 32 or of 128.
fn letters(text: [u8; 161]) {
    text_case(text, &[20, 102, 21, 101, 67, 101, 158, 102]);
    text_case(text, &[24, 97]);
    text_case(text, &[159, 96]);
    text_case(text, &[159, 19]);
    text_case(text, &[159, 179]);
}

// 4 and 5.
fn fields(records: [u8; 70]) {
    record_each(
        records,
        &[
            60, 5, 1, 0, 61, 17, 2, 2, 59, 1, 42, 16, 49, 1, 64, 1, 65, 3,
        ],
    );
    record_case(records, &[29, 1, 59, 1]);
    record_each(records, &[20, 0, 51, 3]);
    record_case(records, &[20, 0, 63, 7]);
}

// A mark on scheme 2, one that is no mark, and 19: a mark on scheme 1, by itself and beside 4, 5 and 6.
fn marks(records: [u8; 70]) {
    record_each(records, &[32, 1, 32, 2, 2, 1]);
    record_case(records, &[2, 1, 32, 2]);
    record_case(records, &[2, 1, 20, 0]);
    record_case(records, &[2, 1, 63, 7]);
}

// Schemes 2 and 3 of a Begin and an End each: a mark on 3 alone, then 19 for one on both.
fn two_marks(records: [u8; 70]) {
    let mut three = records;
    patch(
        &mut three,
        &[40, 1, 43, 0, 44, 0, 50, 0, 51, 3, 52, 1, 53, 6],
    );
    patch(&mut three, &[60, 1, 61, 3, 62, 0, 63, 0, 69, 0]);
    record_case(three, &[32, 0]);
    record_case(three, &[32, 1]);
}

// 6 and 7.
fn arcs(records: [u8; 70]) {
    record_each(records, &[63, 7, 63, 2, 13, 0]);
    record_case(records, &[13, 0, 63, 7]);
    record_each(records, &[12, 1, 62, 3]);
    record_case(records, &[60, 4, 62, 0, 64, 5, 69, 0]);
    record_case(records, &[12, 1, 63, 7]);
}

// 8 and 9, and each beside an earlier one.
fn paths(records: [u8; 70]) {
    record_case(records, &[43, 4, 44, 4]);
    record_case(records, &[60, 3, 62, 0, 63, 6, 64, 6, 69, 0]);
    record_case(records, &[44, 5]);
    record_case(records, &[12, 1, 44, 5]);
    record_case(records, &[43, 4, 44, 4, 62, 3]);
}

fn main() {
    let mut text = [0u8; 161];
    io::read_full(0, &mut text);
    let mut records = [0u8; 70];
    let there = chart_text::read_chart(&text, &mut records);
    report(0, there, 0);
    let mut again = [0u8; 161];
    let back = chart_text::write_chart(&records, &mut again);
    report(1, back, 0);
    io::write_all(1, &again);
    lengths(&text, &records);
    rooms(&text, &records);
    texts(text);
    two_faults(text);
    letters(text);
    fields(records);
    marks(records);
    two_marks(records);
    arcs(records);
    paths(records);
}
