// Readers and writers of which is known how they can fail: the library's over memory, and any other of the library's.
ghost use Rattle.std.specs.Prelude.{◌≡◌, ◌<◌, ◌-◌, ℕ, List, Option, None, Some, [], length, take, drop, Ok, IfOk, IfErr, OnErr, ⊤};
ghost use Rattle.std.specs.Io.{ReadsAtMost, WritesAtMost};
ghost use Rattle.std.specs.Io.KnownBytes.{ReadConsumes, WriteAppends};
ghost use Rattle.std.specs.Io.Cursor.{cursor_position, cursor_inner};
ghost use Rattle.std.specs.IoError.{error_kind};
ghost use Rattle.std.specs.declared.io.Error.{Error};
ghost use Rattle.std.specs.declared.io.ErrorKind.TheVariants.{OutOfMemory};
ghost use Rattle.console.specs.Input.{LosesFirst};
ghost use Rattle.console.specs.Memory.{written_front, unwritten_rest, HasNoRoom};

use std::alloc::Allocator;
use std::io::{self, Cursor, ErrorKind, Read, Write};

/// What gives bytes, and which errors it can have.
pub trait Reader {
    /// The bytes that reads will give from here on, where they are known.
    ghost remaining: { Self → Option (List ℕ) };

    /// The errors that a read can give.
    ghost fails: { Error → Type 0 };

    /// Reads some bytes to the front of the buffer, none only at the end of the input. What stands behind them stays, and after a
    /// failure all.
    fn read_some(&mut self, buffer: &mut [u8]) -> io::Result<usize>
        ensures bound { ReadsAtMost result buffer.new }
        ensures bytes { ReadConsumes (remaining self.old) (remaining self.new) result buffer.new }
        ensures rest { IfOk result (λ n. drop n buffer.new ≡ drop n buffer.old) }
        ensures kept { OnErr result (buffer.new ≡ buffer.old) }
        ensures error { IfErr result fails };
}

/// What takes bytes, and which errors it can have.
pub trait Writer {
    /// The bytes that the writer holds, where they are known.
    ghost contents: { Self → Option (List ℕ) };

    /// The bytes that writes will go over from here on, where they are known.
    ghost overwritten: { Self → Option (List ℕ) };

    /// The errors that can come before so many bytes are written.
    ghost fails: { Self → ℕ → Error → Type 0 };

    /// Writes a front of the text, at least a byte of it unless it is empty, over as many bytes and no others.
    fn write_some(&mut self, text: &[u8]) -> io::Result<usize>
        ensures bound { WritesAtMost result text.now }
        ensures bytes { WriteAppends (contents self.old) (contents self.new) result text.now }
        ensures over { IfOk result (LosesFirst (overwritten self.old) (overwritten self.new)) }
        ensures kept { OnErr result (LosesFirst (overwritten self.old) (overwritten self.new) 0) }
        ensures some { IfOk result (λ n. 0 < length text.now → 0 < n) }
        ensures later { IfOk result (λ n. (e : Error) → fails self.new (length text.now - n) e → fails self.old (length text.now) e) }
        ensures error { IfErr result (fails self.old (length text.now)) };
}

impl Reader for &[u8] {
    ghost remaining = { λ s. Some s.now };

    ghost fails = { λ _. ⊥ };

    fn read_some(&mut self, buffer: &mut [u8]) -> io::Result<usize> {
        self.read(buffer)
    }
}

impl<A: Allocator> Writer for Vec<u8, A> {
    ghost contents = { λ v. Some v.items };

    ghost overwritten = { λ _. Some [] };

    ghost fails = { λ _ _ e. error_kind e ≡ OutOfMemory };

    fn write_some(&mut self, text: &[u8]) -> io::Result<usize> {
        self.write(text)
    }
}

impl Writer for Cursor<&mut [u8]> {
    ghost contents = { λ c. written_front (cursor_position c) (cursor_inner c).now };

    ghost overwritten = { λ c. unwritten_rest (cursor_position c) (cursor_inner c).now };

    ghost fails = { λ c n _. HasNoRoom (cursor_position c) (cursor_inner c).now n };

    fn write_some(&mut self, text: &[u8]) -> io::Result<usize> {
        at_least_one(self.write(text), text)
    }
}

// That nothing was written of a text that is not empty is an error.
fn at_least_one(written: io::Result<usize>, text: &[u8]) -> io::Result<usize>
    ensures same { IfOk result (λ n. written ≡ Ok n) }
    ensures some { IfOk result (λ n. 0 < length text.now → 0 < n) }
    ensures none { OnErr result (IfOk written (λ n. n ≡ 0)) }
    ensures unless_empty { OnErr result (IfOk written (λ _. 0 < length text.now)) }
{
    match written {
        Ok(0) if !text.is_empty() => Err(io::Error::new(
            ErrorKind::WriteZero,
            "nothing was written",
        )),
        written => written,
    }
}

// How many bytes are asked of a reader at once.
const CHUNK: usize = 4096;

/// A reader or a writer of the library's, which may fail at any time.
#[derive(Drop)]
pub struct Stream<S> {
    inner: S,
}

impl<S> Stream<S> {
    /// Over a reader or a writer.
    pub fn new(inner: S) -> Stream<S>
        ensures { result.inner ≡ inner }
    {
        Stream { inner }
    }
}

impl<R: Read> Reader for Stream<R> {
    ghost remaining = { λ s. R.remaining s.inner };

    ghost fails = { λ _. ⊤ };

    // A read may leave anything behind what it read, so it gets a buffer of its own.
    fn read_some(&mut self, buffer: &mut [u8]) -> io::Result<usize> {
        let mut chunk = [0u8; CHUNK];
        let room = buffer.len().min(CHUNK);
        match self.inner.read(&mut chunk[..room]) {
            Ok(more) => {
                buffer[..more].copy_from_slice(&chunk[..more]);
                Ok(more)
            }
            Err(error) => Err(error),
        }
    }
}

impl<W: Write> Writer for Stream<W> {
    ghost contents = { λ s. W.contents s.inner };

    ghost overwritten = { λ _. None };

    ghost fails = { λ _ _ _. ⊤ };

    fn write_some(&mut self, text: &[u8]) -> io::Result<usize> {
        at_least_one(self.inner.write(text), text)
    }
}
