// Text that is put together in a buffer. What there is no room for is left out.
ghost use Rattle.std.specs.Prelude.{◌≡◌, ℕ, ◌+◌, ◌-◌, ◌≤◌, List, [], Some, ◌++◌, length, take, IsTrue, ◌↔◌};

use std::fmt;
use std::fmt::Display;
use std::marker::Model;

// A clause sees the bytes that stand in it.
#[derive(Drop)]
pub struct Text<const N: usize> {
    buffer: [u8; N],
    len: usize,
}

impl<const N: usize> Model for Text<N> {
    ghost Value = { List ℕ };

    ghost view = { λ t. take t.len t.buffer };

    ghost invariant = { λ t. t.len ≤ N };
}

// Puts bytes after the first `len`: how many there are then.
fn put(all: &mut [u8], len: usize, bytes: &[u8]) -> usize
    requires { len + length bytes.now ≤ length all.old }
    ensures room { result ≤ length all.new }
    ensures after { take result all.new ≡ take len all.old ++ bytes.now }
{
    let end = len + bytes.len();
    all[len..end].copy_from_slice(bytes);
    end
}

// The same, as far as there is room. Where all of it has room it is copied by its own length, which is often a constant.
fn append(all: &mut [u8], len: usize, bytes: &[u8]) -> usize
    requires { len ≤ length all.old }
    ensures room { result ≤ length all.new }
    ensures after { take result all.new ≡ take len all.old ++ take (length all.old - len) bytes.now }
{
    let room = all.len() - len;
    if bytes.len() <= room {
        return put(all, len, bytes);
    }
    put(all, len, &bytes[..room])
}

impl<const N: usize> Text<N> {
    pub fn new() -> Self
        ensures { result ≡ [] }
    {
        Text {
            buffer: [0; N],
            len: 0,
        }
    }

    pub fn len(&self) -> usize
        ensures { result ≡ length self.now }
    {
        self.len
    }

    pub fn is_empty(&self) -> bool
        ensures { IsTrue result ↔ (self.now ≡ []) }
    {
        self.len == 0
    }

    pub fn is_full(&self) -> bool
        ensures { IsTrue result ↔ (length self.now ≡ N) }
    {
        self.len == N
    }

    pub fn as_bytes(&self) -> &[u8]
        ensures { result.now ≡ self.now }
    {
        let all = &self.buffer[..];
        &all[..self.len]
    }

    pub fn clear(&mut self)
        ensures { self.new ≡ [] }
    {
        self.len = 0;
    }

    // Adds bytes as they are.
    pub fn push(&mut self, bytes: &[u8])
        ensures { self.new ≡ self.old ++ take (N - length self.old) bytes.now }
    {
        self.len = append(&mut self.buffer, self.len, bytes);
    }

    // Adds what a value prints.
    pub fn print<D: Display + Drop>(&mut self, value: D) {
        let _ = fmt::Write::write_fmt(self, value);
    }
}

impl<const N: usize> fmt::Write for Text<N> {
    fn write_str(&mut self, s: &str) -> fmt::Result {
        self.push(s.as_bytes());
        Ok(())
    }
}

// It prints what stands in it, at once.
impl<const N: usize> Display for Text<N> {
    ghost output = { λ t. Some t };

    fn fmt<W: fmt::Write>(&self, f: &mut fmt::Formatter<W>) -> fmt::Result {
        let text = std::str::from_utf8(self.as_bytes()).map_err(|_| fmt::Error)?;
        f.write_str(text)
    }
}
