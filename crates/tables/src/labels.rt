// Labels and entries of a table, whatever its bytes are.
ghost use Rattle.std.specs.Prelude.{◌≡◌, ◌+◌, ◌≤◌, ◌<◌};
ghost use Rattle.text.specs.declared.frames.sizes.TheConstants.{FRAME};
ghost use Rattle.text.specs.frames.Frame.{field};
ghost use Rattle.image.specs.Decode.{labels_from};
ghost use Rattle.tables.specs.Table.{table_label};
ghost use Rattle.tables.specs.inner.Asked.{entry_of};
ghost use Rattle.tables.specs.inner.Labels.{as_label};

use crate::{Label, Table};
use image::layout::*;
use image::{byte, quad};

impl<'a> Table<'a> {
    /// Byte k, 0 to 9, of the frame of label l, 2 to M.
    // H is added first, so that the compiler finds the frame of the label before it by the same product.
    pub fn field(self, l: usize, k: usize) -> u8
        requires low { 2 ≤ l }
        requires high { l ≤ self.last }
        requires inside { k < FRAME }
        ensures { result ≡ field self.entry.bytes.now (labels_from self.entry.bytes.now + l) k }
    {
        byte(self.bytes, (self.schemes as usize) + l + 1, k)
    }

    /// The kind of label l, 2 to M: 0 plain, 1 a call of a drawing's number, 2 of a function's; a byte above 2 counts as 0.
    pub fn kind(self, l: usize) -> u8
        requires low { 2 ≤ l }
        requires high { l ≤ self.last }
        ensures { result ≡ (table_label self.entry.bytes.now l).kind }
    {
        let kind = self.field(l, TICK_KIND);
        if FUNCTION_CALL < kind {
            return PLAIN;
        }
        kind
    }

    // A scheme above H counts as none.
    fn called(self, l: usize) -> u8
        requires low { 2 ≤ l }
        requires high { l ≤ self.last }
        ensures { result ≡ (table_label self.entry.bytes.now l).called }
    {
        let called = self.field(l, CALLED);
        if self.schemes < called {
            return 0;
        }
        called
    }

    fn mask(self, l: usize) -> u32
        requires low { 2 ≤ l }
        requires high { l ≤ self.last }
        ensures { result ≡ (table_label self.entry.bytes.now l).mask }
    {
        quad(self.bytes, (self.schemes as usize) + l + 1, LABEL_MASK)
    }

    /// Label l, 2 to M, by its frame: a kind above 2 counts as 0, a called scheme above H as none.
    pub fn numbered_label(self, l: usize) -> Label
        requires low { 2 ≤ l }
        requires high { l ≤ self.last }
        ensures { as_label result ≡ table_label self.entry.bytes.now l }
    {
        Label {
            kind: self.kind(l),
            called: self.called(l),
            owner: self.field(l, OWNER),
            result: self.field(l, LABEL_RESULT),
            mask: self.mask(l),
        }
    }

    /// Label l of any number: 0 and 1, home and return, are the same in every table, and one above M holds nothing.
    pub fn label(self, l: u8) -> Label
        ensures { as_label result ≡ table_label self.entry.bytes.now l }
    {
        if self.last < l {
            return Label {
                kind: PLAIN,
                called: 0,
                owner: 0,
                result: 0,
                mask: 0,
            };
        }
        match l {
            0 => Label {
                kind: HOME,
                called: 0,
                owner: 1,
                result: 0,
                mask: 0,
            },
            1 => Label {
                kind: RETURN,
                called: 0,
                owner: 0,
                result: 0,
                mask: 0,
            },
            _ => self.numbered_label(l as usize),
        }
    }

    /// The label at which scheme h begins, of 1 to H; 0 counts as 1.
    pub fn entry(self, h: u8) -> u8
        requires { h ≤ self.schemes }
        ensures { result ≡ entry_of self.entry.bytes.now h }
    {
        // which frame is chosen, and not which of two bytes: else the address of the second is kept in a register through a run
        let scheme = if h == 0 { 1 } else { h };
        byte(self.bytes, scheme as usize, ENTRY_LABEL)
    }
}
