//! The image check, fresh states and runs, over the tables of the bench sheet and edits of them; and dry runs of the sheet's chart.
//! Each call prints a frame: 00 for a check, 01 for a run, 02 for a fresh state, 03 for a dry run; then the number or 00, the index, the
//! count. A run of eight words with room for all of them prints its masks and codes too, and so does each dry run.
#![tactic(auto)]

use dry_runs::dry_run;
use edits::{patch, report};
use state::State;
use text::frames::sizes::LINE;

// The text of the table, edited.
fn text_of(table: [u8; 120], edits: &[u8]) -> [u8; 276] {
    let mut edited = table;
    patch(&mut edited, edits);
    let mut text = [0u8; 276];
    text::frames::put_text(&mut text, 0, &edited);
    text
}

fn check(table: [u8; 120], edits: &[u8]) {
    let text = text_of(table, edits);
    report(0, image_check::check_image(&text), 0);
}

// The table is checked under each edit by itself.
fn check_each(table: [u8; 120], edits: &[u8]) {
    let n = edits.len() / 2;
    for i in 0..n {
        let from = 2 * i;
        let to = from + 2;
        check(table, &edits[from..to]);
    }
}

fn check_front(text: &[u8], n: usize) {
    if n <= text.len() {
        report(0, image_check::check_image(&text[..n]), 0);
    }
}

fn check_text(table: [u8; 120], edits: &[u8]) {
    let mut text = text_of(table, &[]);
    patch(&mut text, edits);
    report(0, image_check::check_image(&text), 0);
}

fn line(bytes: &[u8]) {
    io::write_all(1, bytes);
}

// The mask's last byte and the code of each of eight ticks; 77 and AA where nothing was written.
fn print_ticks(masks: [u32; 8], codes: [u8; 8]) {
    for i in 0..8 {
        let mask = output::printing::code_line((masks[i] % 256) as u8);
        line(&mask);
        let code = output::printing::code_line(codes[i]);
        line(&code);
    }
}

// A run of eight words; prints what it answers and leaves, and hands its state on.
fn run(text: [u8; 276], state: State, words: [u16; 8]) -> State {
    let mut masks = [119u32; 8];
    let mut codes = [170u8; 8];
    let ran = runs::state_runs::run(&text, state, &words, &mut masks, &mut codes);
    let answer = ran.answer;
    report(1, answer, 0);
    print_ticks(masks, codes);
    ran.state
}

// A run of no words, which still tries the image and the state.
fn rest(text: [u8; 276], state: State) {
    let mut masks = [0u32; 1];
    let mut codes = [0u8; 1];
    let words = [0u16; 1];
    let ran = runs::state_runs::run(&text, state, &words[..0], &mut masks, &mut codes);
    let answer = ran.answer;
    report(1, answer, 0);
}

// A run whose buffer of codes is one too short.
fn short(text: [u8; 276], state: State, words: [u16; 8]) -> State {
    let mut masks = [119u32; 8];
    let mut codes = [170u8; 7];
    let ran = runs::state_runs::run(&text, state, &words, &mut masks, &mut codes);
    let answer = ran.answer;
    report(1, answer, 0);
    ran.state
}

// 1 to 3, and small letters, which are read.
fn texts(p: [u8; 120]) {
    let text = text_of(p, &[]);
    check_front(&text, 0);
    check_front(&text, 275);
    let long = [48u8; LINE * (2 + State::SCHEMES + State::LABELS + State::ROWS)];
    report(0, image_check::check_image(&long), 0);
    check_text(p, &[1, 102, 20, 101]);
    check_text(p, &[21, 103]);
    check_text(p, &[45, 32]);
    check_text(p, &[67, 48]);
    check_text(p, &[67, 48, 230, 71]);
}

// 11.
fn headers(p: [u8; 120]) {
    check(p, &[]);
    check_each(p, &[0, 14, 1, 0, 1, 17, 2, 0]);
    check(p, &[3, 4, 4, 1]);
    check_each(p, &[4, 5, 5, 1, 5, 2, 5, 3, 6, 1]);
    check(p, &[9, 1, 10, 17]);
}

// 12.
fn positions(p: [u8; 120]) {
    check_each(p, &[10, 17, 11, 2, 30, 16, 71, 3, 80, 17, 111, 2]);
    check(p, &[71, 9, 11, 9]);
    check(p, &[13, 1, 111, 2]);
}

// 13: entries and labels.
fn labels(p: [u8; 120]) {
    check_each(p, &[13, 1, 12, 1, 12, 9, 22, 2, 12, 0, 22, 1]);
    check_each(p, &[32, 3, 34, 2, 35, 1, 39, 1, 42, 4, 44, 1]);
    check_each(p, &[52, 3, 52, 0, 53, 1, 53, 3, 63, 2]);
    check_each(p, &[74, 0, 74, 3, 75, 3, 76, 255]);
}

// 13: rows.
fn rows(p: [u8; 120]) {
    check_each(p, &[81, 1, 111, 5, 84, 1, 86, 3, 86, 1]);
    check(p, &[52, 2, 86, 1]);
    check_each(p, &[87, 3, 87, 9, 87, 1, 97, 0, 88, 1, 119, 1]);
    check(p, &[119, 1, 13, 1]);
}

// A run of no words from a state with these places; each scheme is called by its own number.
fn state_case(text: [u8; 276], size: u8, depth: u8, edits: &[u8], schemes: &[u8]) {
    let mut places = [0u8; 32];
    patch(&mut places, edits);
    let mut numbers = [0u8; 32];
    patch(&mut numbers, schemes);
    let results = [1u8; 16];
    let serving = [1, 2, 3, 4, 5, 6, 7, 8, 9, 10, 11, 12, 13, 14, 15, 16];
    rest(
        text,
        State {
            size,
            depth,
            places,
            results,
            serving,
            numbers,
            servers: numbers,
        },
    );
}

// 15: sizes and depths.
fn depths(text: [u8; 276]) {
    state_case(text, 3, 1, &[], &[0, 1]);
    state_case(text, 0, 1, &[], &[0, 1]);
    state_case(text, 33, 1, &[], &[0, 1]);
    state_case(text, 3, 0, &[], &[0, 1]);
    state_case(
        text,
        3,
        4,
        &[0, 2, 1, 4, 2, 4, 3, 3],
        &[0, 1, 1, 2, 2, 2, 3, 2],
    );
}

// 15: the first place.
fn firsts(text: [u8; 276]) {
    state_case(text, 3, 1, &[0, 5], &[0, 1]);
    state_case(text, 3, 1, &[0, 3], &[0, 1]);
    state_case(text, 3, 1, &[0, 1], &[0, 1]);
    state_case(text, 3, 2, &[1, 1], &[0, 1, 1, 2]);
}

// 15: the second place.
fn seconds(text: [u8; 276]) {
    state_case(text, 3, 2, &[0, 2, 1, 2], &[0, 1, 1, 2]);
    state_case(text, 3, 2, &[0, 2, 1, 3], &[0, 1, 1, 2]);
    state_case(text, 3, 2, &[0, 2, 1, 1], &[0, 1, 1, 2]);
    state_case(text, 3, 2, &[0, 2, 1, 9], &[0, 1, 1, 2]);
}

// 15: places past the depth.
fn past_depth(text: [u8; 276]) {
    state_case(text, 3, 1, &[0, 2, 1, 3], &[0, 1]);
    state_case(text, 3, 1, &[0, 2, 31, 1], &[0, 1]);
    state_case(text, 32, 32, &[0, 2], &[0, 1, 1, 2, 2, 2, 3, 2]);
}

// 15: the first place where scheme 2 is the handler.
fn handler_firsts(text: [u8; 276]) {
    state_case(text, 3, 1, &[0, 3], &[0, 2]);
    state_case(text, 3, 1, &[0, 1], &[0, 2]);
    state_case(text, 3, 1, &[0, 5], &[0, 2]);
    state_case(text, 3, 2, &[0, 4, 1, 3], &[0, 2, 1, 2]);
    state_case(text, 3, 2, &[0, 1, 1, 3], &[0, 2, 1, 2]);
}

fn states(p: [u8; 120]) {
    let text = text_of(p, &[]);
    depths(text);
    firsts(text);
    seconds(text);
    past_depth(text);
    handler_firsts(text_of(p, &[5, 2]));
}

fn fresh(size: usize) -> State {
    let made = State::fresh(size);
    let answer = made.answer;
    report(2, answer, 0);
    made.state
}

// B2 to B5, runs after 16 and 17, and 18 at a plain tick and at a return.
fn runs(p: [u8; 120]) {
    let text = text_of(p, &[]);
    let words = [0, 0, 1, 0, 0, 0, 0, 0];
    let three = fresh(3);
    run(text, three, words);
    let two = run(text, fresh(2), words);
    run(text, two, words);
    rest(text, two);
    run(text, fresh(1), words);
    rest(text, fresh(32));
    let kept = short(text, fresh(3), words);
    run(text, kept, words);
    rest(text, fresh(0));
    fresh(33);
    let gap = text_of(p, &[95, 1]);
    let stuck = run(gap, fresh(3), [0, 0, 0, 0, 0, 0, 0, 0]);
    run(text, stuck, words);
    run(gap, fresh(3), [0, 0, 1, 0, 0, 0, 0, 0]);
    let back = text_of(p, &[83, 1, 85, 1]);
    let held = run(back, fresh(3), [0, 0, 0, 0, 0, 0, 0, 0]);
    run(back, held, [1, 0, 0, 0, 1, 0, 0, 0]);
}

// A drop for scheme 2, its return to label 0, and 17 while it is at the bottom.
fn drops(p: [u8; 120]) {
    let text = text_of(p, &[5, 2]);
    let words = [0, 0, 1, 0, 0, 0, 0, 0];
    let two = run(text, fresh(2), words);
    run(text, two, words);
    let one = run(text, fresh(1), words);
    rest(text, one);
}

// A chart run from its text over eight words, with this much room for its image.
fn dry(chart: &[u8], size: usize, room: usize) {
    let mut image = [0u8; 276];
    let mut masks = [119u32; 8];
    let mut codes = [170u8; 8];
    let words = [0, 0, 1, 0, 0, 0, 0, 0];
    if room <= 276 {
        let answer = dry_run(
            chart,
            size,
            &mut image[..room],
            &words,
            &mut masks,
            &mut codes,
        );
        report(3, answer, 0);
        print_ticks(masks, codes);
    }
}

// B2 to B4 from the chart's text, and on 32 places; then what refuses the text, the image's room and the size, each before the next.
fn dry_runs(chart: [u8; 161]) {
    dry(&chart, 3, 276);
    dry(&chart, 2, 276);
    dry(&chart, 1, 276);
    dry(&chart, 32, 276);
    dry(&chart[..23], 0, 0);
    dry(&chart, 0, 275);
    dry(&chart, 0, 276);
    dry(&chart, 33, 276);
}

fn main() {
    let p = *b"\x0F\x02\x04\x00\x04\x00\x00\x00\x00\x00\
        \x10\x01\x02\x00\x00\x00\x00\x00\x00\x00\
        \x10\x02\x03\x00\x00\x00\x00\x00\x00\x00\
        \x11\x00\x04\x00\x01\x00\x00\x00\x00\x00\
        \x11\x01\x03\x00\x00\x00\x00\x00\x00\x00\
        \x11\x02\x01\x02\x01\x00\x00\x00\x00\x01\
        \x11\x03\x00\x00\x02\x00\x00\x00\x00\x00\
        \x11\x04\x01\x02\x02\x00\x00\x00\x00\x02\
        \x12\x02\x00\x00\x00\x00\x02\x00\x00\x00\
        \x12\x03\x00\x01\x00\x00\x02\x01\x00\x00\
        \x12\x03\x00\x01\x00\x01\x02\x04\x00\x00\
        \x12\x04\x00\x00\x00\x00\x02\x01\x00\x00";
    texts(p);
    headers(p);
    positions(p);
    labels(p);
    rows(p);
    states(p);
    runs(p);
    drops(p);
    dry_runs(
        *b"00010001000000000000FE\n\
        02010202000000000001F8\n\
        01010000000000000000FE\n\
        00020004000000000000FA\n\
        03020005060000000000F0\n\
        01020000000000000000FD\n\
        02020205000000000002F3\n",
    );
    let function = *b"\x0F\x02\x04\x00\x04\x00\x00\x00\x00\x00\
        \x10\x01\x02\x00\x00\x00\x00\x00\x00\x00\
        \x10\x02\x04\x00\x00\x00\x00\x00\x00\x00\
        \x11\x00\x04\x00\x01\x00\x00\x00\x00\x00\
        \x11\x01\x03\x00\x00\x00\x00\x00\x00\x00\
        \x11\x02\x02\x02\x01\x00\x00\x00\x00\x00\
        \x11\x03\x00\x00\x01\x00\x00\x00\x00\x01\
        \x11\x04\x00\x00\x02\x02\x00\x00\x00\x00\
        \x12\x02\x00\x00\x00\x00\x00\x00\x00\x00\
        \x12\x02\x00\x00\x00\x00\x01\x03\x00\x00\
        \x12\x03\x00\x00\x00\x00\x02\x00\x00\x00\
        \x12\x04\x00\x00\x00\x00\x02\x01\x00\x00";
    let text = text_of(function, &[]);
    run(text, fresh(2), [0, 0, 0, 0, 0, 0, 0, 0]);
}
