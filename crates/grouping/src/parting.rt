// Whether rows of two labels part them: they match one word and bit and lead to different classes. Where both labels have many rows, those of
// one are taken in blocks (covering::blocks).
ghost use Rattle.std.specs.Prelude.{◌&&◌, ◌≡◌, ◌≤◌, ◌<◌, slice_index};
ghost use Rattle.text.specs.frames.Frame.{size, field};
ghost use Rattle.covering.specs.inner.Sharing.{Shares};
ghost use Rattle.grouping.specs.inner.GroupingContracts.{is_parting_in, is_parting_any, has_marked_next, is_parted_in, is_parted_by, is_parted_on, count_marked, has_many, Marks};

use covering::are_together;
use covering::blocks::{Shared, agrees, block_end, shared_by};
use image::byte;
use image::layout::NEXT;
use tables::Table;
use text::frames::sizes::LABELS;

/// With so many rows to marked labels those of the other label are taken in blocks, if they are as many.
pub const MANY: usize = 8;

/// What a round goes by: a prepared table, the classes before the round, the marks of the labels, and for each label the highest mark of
/// those that its rows lead to. The marks say which rows need be looked at.
#[derive(Clone, Copy)]
pub struct Round<'a> {
    pub table: Table<'a>,
    pub classes: &'a [u8; LABELS],
    pub marks: &'a [u8; LABELS],
    pub touched: &'a [u8; LABELS],
    ghost marked: { Marks table.bytes.now classes.now marks.now touched.now },
}

impl<'a> Round<'a> {
    // Whether the rows in frames f and g part their labels; the one in f leads to that class. Classes are compared first: that decides
    // soonest.
    fn parts(&self, class: u8, f: usize, g: usize) -> bool
        requires first_inside { f < size self.now.table.bytes.now }
        requires second_inside { g < size self.now.table.bytes.now }
        requires led_to { class ≡ slice_index self.now.classes.now (field self.now.table.bytes.now f NEXT) }
        ensures { result ≡ is_parting_in self.now.table.bytes.now self.now.classes.now f g }
    {
        let next = byte(self.table.bytes, g, NEXT) as usize;
        class != self.classes[next] && are_together(self.table.bytes, f, g)
    }

    // Whether the row in frame f parts its label from the one whose rows stand from frame first up to end.
    fn parts_any(&self, f: usize, first: usize, end: usize) -> bool
        requires row_inside { f < size self.now.table.bytes.now }
        requires rows_inside { end ≤ size self.now.table.bytes.now }
        ensures { result ≡ is_parting_any self.now.table.bytes.now self.now.classes.now f first end }
    {
        let next = byte(self.table.bytes, f, NEXT) as usize;
        let class = self.classes[next];
        (first..end).any(|g| self.parts(class, f, g))
    }

    // The same, where the rows share this: a row that does not agree with it is compared with none of them.
    fn parts_sharing(&self, shared: Shared, f: usize, first: usize, end: usize) -> bool
        requires row_inside { f < size self.now.table.bytes.now }
        requires rows_inside { end ≤ size self.now.table.bytes.now }
        requires shares { Shares self.now.table.bytes.now first end shared.care shared.values }
        ensures { result ≡ is_parting_any self.now.table.bytes.now self.now.classes.now f first end }
    {
        agrees(self.table.bytes, shared, f) && self.parts_any(f, first, end)
    }

    // Whether the row in frame f leads to a label with at least this mark.
    fn is_marked(&self, least: u8, f: usize) -> bool
        requires { f < size self.now.table.bytes.now }
        ensures { result ≡ has_marked_next self.now.table.bytes.now self.now.marks.now least f }
    {
        let next = byte(self.table.bytes, f, NEXT) as usize;
        least <= self.marks[next]
    }

    // Whether a row of label m that leads to a label with at least this mark parts m from l: each such row is compared with each of l.
    fn pairs_part(&self, least: u8, m: usize, l: usize) -> bool
        requires one_low { 2 ≤ m }
        requires one_high { m ≤ self.now.table.last }
        requires other_low { 2 ≤ l }
        requires other_high { l ≤ self.now.table.last }
        ensures { result ≡ is_parted_by self.now.table.bytes.now self.now.classes.now self.now.marks.now least m l }
    {
        let first = self.table.first_of(l);
        let end = self.table.end_of(l);
        let last = self.table.end_of(m);
        (self.table.first_of(m)..last).any(|f| self.is_marked(least, f)
            && self.parts_any(f, first, end))
    }

    // The same for the rows of one block of the other label, in frames from first up to end.
    fn block_parts(&self, least: u8, m: usize, first: usize, end: usize) -> bool
        requires low { 2 ≤ m }
        requires high { m ≤ self.now.table.last }
        requires some_row { first < end }
        requires rows_inside { end ≤ size self.now.table.bytes.now }
        ensures { result ≡ is_parted_in self.now.table.bytes.now self.now.classes.now self.now.marks.now least m first end }
    {
        let shared = shared_by(self.table.bytes, first, end);
        let last = self.table.end_of(m);
        (self.table.first_of(m)..last).any(|f| self.is_marked(least, f)
            && self.parts_sharing(shared, f, first, end))
    }

    // The same for all rows of l, block by block.
    fn blocks_part(&self, least: u8, m: usize, l: usize) -> bool
        requires one_low { 2 ≤ m }
        requires one_high { m ≤ self.now.table.last }
        requires other_low { 2 ≤ l }
        requires other_high { l ≤ self.now.table.last }
        ensures { result ≡ is_parted_by self.now.table.bytes.now self.now.classes.now self.now.marks.now least m l }
    {
        let end = self.table.end_of(l);
        let mut from = self.table.first_of(l);
        while from < end {
            let next = block_end(from, end);
            if self.block_parts(least, m, from, next) {
                return true;
            }
            from = next;
        }
        false
    }

    // How many rows of label m lead to a label with at least this mark.
    fn count_marked(&self, least: u8, m: usize) -> usize
        requires low { 2 ≤ m }
        requires high { m ≤ self.now.table.last }
        ensures { result ≡ count_marked self.now.table.bytes.now self.now.marks.now least m }
    {
        let last = self.table.end_of(m);
        (self.table.first_of(m)..last)
            .filter(|f| self.is_marked(least, *f))
            .count()
    }

    // Whether label l has so many rows, and so many of label m lead to such labels, that blocks spare more than they take.
    fn are_many(&self, least: u8, m: usize, l: usize) -> bool
        requires one_low { 2 ≤ m }
        requires one_high { m ≤ self.now.table.last }
        requires other_low { 2 ≤ l }
        requires other_high { l ≤ self.now.table.last }
        ensures { result ≡ has_many self.now.table.bytes.now self.now.marks.now least m l }
    {
        if self.table.end_of(l) < self.table.first_of(l) + MANY {
            return false;
        }
        MANY <= self.count_marked(least, m)
    }

    // The same, in blocks where there are many rows.
    fn rows_part(&self, least: u8, m: usize, l: usize) -> bool
        requires one_low { 2 ≤ m }
        requires one_high { m ≤ self.now.table.last }
        requires other_low { 2 ≤ l }
        requires other_high { l ≤ self.now.table.last }
        ensures { result ≡ is_parted_by self.now.table.bytes.now self.now.classes.now self.now.marks.now least m l }
    {
        if self.are_many(least, m, l) {
            return self.blocks_part(least, m, l);
        }
        self.pairs_part(least, m, l)
    }

    // The same: where a label's note is lower, none of its rows leads to such a label, so none is looked at.
    fn are_parted_by(&self, least: u8, m: usize, l: usize) -> bool
        requires one_low { 2 ≤ m }
        requires one_high { m ≤ self.now.table.last }
        requires other_low { 2 ≤ l }
        requires other_high { l ≤ self.now.table.last }
        ensures { result ≡ is_parted_by self.now.table.bytes.now self.now.classes.now self.now.marks.now least m l }
    {
        if self.touched[m] < least {
            return false;
        }
        self.rows_part(least, m, l)
    }

    /// Whether rows of labels m and l, of one class, part these. Mostly neither is noted: that is told first, without a call.
    pub fn are_parted(&self, m: usize, l: usize) -> bool
        requires one_low { 2 ≤ m }
        requires one_high { m ≤ self.now.table.last }
        requires other_low { 2 ≤ l }
        requires other_high { l ≤ self.now.table.last }
        requires one_class { slice_index self.now.classes.now m ≡ slice_index self.now.classes.now l }
        ensures { result ≡ is_parted_on self.now.table.bytes.now self.now.classes.now m l }
    {
        if self.touched[m] == 0 && self.touched[l] == 0 {
            return false;
        }
        self.are_parted_by(1, m, l) || self.are_parted_by(2, l, m)
    }
}
