//! The calls by value, behind a reference and over a list of states, which no call from C makes: ticks, live runs, rebindings, priced
//! runs, causes and spindles, over the image of the bench sheet's chart and over one with a scheme to swap.
//! Each call prints a frame: 00 for a translation or a preparation, 10 for a tick, 11 for one by value, 12 for a live tick, 13 for a live
//! run, 14 and 15 for a rebinding and a live one, 16 for a priced run, 17 for a cause, 18 and 19 for a spindle's tick and live tick; then
//! the number or 00, the index, the count, and the price, the row or the places taken. A tick's mask and code, a run's masks and codes
//! and a cause's mask and bit follow, a byte a line.
#![tactic(auto)]

use cause::explaining::cause_of;
use edits::report;
use output::printing::code_line;
use prices::priced_states::priced_run;
use rebinding::{live_rebind, rebind};
use runs::kept_states::tick;
use runs::state_runs::{live_run, live_tick, tick_image};
use spindles::spindle_list::{live_spin, spin};
use state::State;
use tables::preparing::prepare;
use text::frames::Refusal;
use ticks::Tick;
use translator::translating::translate;

fn byte_line(byte: u8) {
    let line = code_line(byte);
    io::write_all(1, &line);
}

fn report_tick(entry: u8, answer: Result<Tick, Refusal>, bytes: usize) {
    match answer {
        Ok(made) => {
            report(entry, Ok(1), bytes);
            byte_line((made.mask % 256) as u8);
            byte_line(made.code);
        }
        Err(refusal) => report(entry, Err(refusal), bytes),
    }
}

fn print_ticks(masks: [u32; 4], codes: [u8; 4]) {
    for i in 0..4 {
        byte_line((masks[i] % 256) as u8);
        byte_line(codes[i]);
    }
}

fn fresh(size: usize) -> State {
    State::fresh(size).state
}

// Ticks by the words 0, 0, 1, 0, by each of the three calls; then on a stack of one place, where the second tick is a call and refused.
fn ticks(image: &[u8], table: &[u8]) {
    let words = [0, 0, 1, 0];
    let mut kept = fresh(3);
    let mut state = fresh(3);
    let mut live = fresh(3);
    for i in 0..4 {
        report_tick(0x10, tick(&mut kept, image, words[i]), 0);
        let ticked = tick_image(image, state, words[i]);
        report_tick(0x11, ticked.answer, 0);
        state = ticked.state;
        let ticked = live_tick(table, live, words[i]);
        report_tick(0x12, ticked.answer, 0);
        live = ticked.state;
    }
    let mut short = fresh(1);
    for _ in 0..2 {
        report_tick(0x10, tick(&mut short, image, 0), 0);
        report_tick(0x11, tick_image(image, short, 0).answer, 0);
        report_tick(0x12, live_tick(table, short, 0).answer, 0);
    }
}

// A live run of four words, with room for so many codes, four at most.
fn run_live(table: &[u8], state: State, room: usize) -> State {
    let mut masks = [119u32; 4];
    let mut codes = [170u8; 4];
    let ran = live_run(
        table,
        state,
        &[0, 0, 1, 0],
        &mut masks,
        &mut codes[..room.min(4)],
    );
    report(0x13, ran.answer, 0);
    print_ticks(masks, codes);
    ran.state
}

// A priced run of four words, where the first two outputs cost so much a tick.
fn run_priced(image: &[u8], size: usize, first: u16, second: u16) {
    let mut prices = [0u16; 32];
    prices[0] = first;
    prices[1] = second;
    let mut masks = [119u32; 4];
    let mut codes = [170u8; 4];
    let ran = priced_run(
        image,
        fresh(size),
        &prices,
        &[0, 0, 1, 0],
        &mut masks,
        &mut codes,
    );
    report(0x16, ran.answer, ran.price as usize);
    print_ticks(masks, codes);
}

// What makes the ticks of the words 0, 0, 1, 0 go where they go, from a fresh state on. A tick from label 0 takes no row, nor does a call.
fn causes(image: &[u8]) {
    let words = [0, 0, 1, 0];
    let mut state = fresh(3);
    for i in 0..4 {
        match cause_of(image, &state, words[i]) {
            Ok(told) => {
                report(0x17, Ok(0), told.row as usize);
                byte_line((told.mask % 256) as u8);
                byte_line(told.bit);
            }
            Err(refusal) => report(0x17, Err(refusal), 0),
        }
        state = tick_image(image, state, words[i]).state;
    }
}

// Four ticks with each number served by its own scheme, and four with number 2 given to scheme 3, by either call; then what is refused.
fn rebindings(image: &[u8], table: &[u8]) {
    let mut state = fresh(2);
    let given = rebind(image, state, 2, 3);
    report(0x14, given.answer, 0);
    let given_live = live_rebind(table, state, 2, 3);
    report(0x15, given_live.answer, 0);
    for _ in 0..4 {
        let ticked = tick_image(image, state, 0);
        report_tick(0x11, ticked.answer, 0);
        state = ticked.state;
    }
    state = given.state;
    let mut live = given_live.state;
    for _ in 0..4 {
        let ticked = tick_image(image, state, 0);
        report_tick(0x11, ticked.answer, 0);
        state = ticked.state;
        report_tick(0x10, tick(&mut live, image, 0), 0);
    }
    report(0x14, rebind(image, state, 1, 2).answer, 0);
    report(0x15, live_rebind(table, state, 2, 4).answer, 0);
    report(0x15, live_rebind(&[0u8; 9], state, 2, 3).answer, 0);
}

// Four spindles by turns on one list, each two ticks, spindle 2 by live ticks; then a spindle that there is not, and a record that is
// wrong.
fn spindles(image: &[u8], table: &[u8]) {
    let mut states = [fresh(3); 4];
    let mut taken: usize = 4;
    for turn in 0..8 {
        let spindle = turn % 4;
        if spindle == 2 {
            let spun = live_spin(&mut states, taken, spindle, table, 0);
            taken = spun.taken;
            report_tick(0x19, spun.answer, taken);
        } else {
            let spun = spin(&mut states, taken, spindle, image, 0);
            taken = spun.taken;
            report_tick(0x18, spun.answer, taken);
        }
    }
    let spun = spin(&mut states, taken, 4, image, 0);
    report_tick(0x18, spun.answer, spun.taken);
    let spun = live_spin(&mut states, 65, 0, table, 0);
    report_tick(0x19, spun.answer, spun.taken);
}

fn main() {
    let mut image = [0u8; 276];
    let mut table = [0u8; 120];
    let chart = *b"00010001000000000000FE\n\
        02010202000000000001F8\n\
        01010000000000000000FE\n\
        00020004000000000000FA\n\
        03020005060000000000F0\n\
        01020000000000000000FD\n\
        02020205000000000002F3\n";
    report(0, translate(&chart, &mut image), 0);
    report(0, prepare(&image, &mut table), 0);
    ticks(&image, &table);
    let left = run_live(&table, fresh(3), 4);
    let left = run_live(&table, left, 4);
    run_live(&table, left, 3);
    run_live(&table, fresh(1), 4);
    run_live(&[0u8; 100], fresh(3), 4);
    run_priced(&image, 3, 100, 25);
    run_priced(&image, 1, 100, 25);
    causes(&image);
    spindles(&image, &table);
    let swapped = *b"00010001000000000000FE\n\
        02010202000000000001F8\n\
        01010000000000000000FE\n\
        00020004000000000000FA\n\
        02020005000000000002F5\n\
        01020000000000000000FD\n\
        00030007000000000000F6\n\
        02030008000000000004EF\n\
        01030000000000000000FC\n";
    let mut image = [0u8; 276];
    let mut table = [0u8; 120];
    report(0, translate(&swapped, &mut image), 0);
    report(0, prepare(&image, &mut table), 0);
    rebindings(&image, &table);
}
