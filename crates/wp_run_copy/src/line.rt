//! The line that tells what was copied, in memory that was taken before.
ghost use Rattle.std.specs.Prelude.{◌≡◌, ◌+◌, ◌≤◌, ◌++◌, [], length, codes, decimal, vec_len, vec_capacity};
ghost use Rattle.wp_run_copy.specs.Line.{copied_line};

use wp_copy::Copied;

/// As many bytes as it has at most.
pub(crate) const MOST_LINE_BYTES: usize = 71;

/// The list has room for the text.
fn push_text(line: &mut Vec<u8>, text: &[u8])
    requires { vec_len line.old + length text.now ≤ vec_capacity line.old }
    ensures items { line.new.items ≡ line.old.items ++ text.now }
    ensures len { vec_len line.new ≡ vec_len line.old + length text.now }
    ensures room { vec_capacity line.old ≤ vec_capacity line.new }
{
    line.extend_from_slice(text).unwrap();
}

/// The text, and the number behind it, for which the list has room.
fn push_number(line: &mut Vec<u8>, text: &[u8], number: u64)
    requires { vec_len line.old + length text.now + 20 ≤ vec_capacity line.old }
    ensures items { line.new.items ≡ line.old.items ++ text.now ++ decimal number }
    ensures len { vec_len line.new ≤ vec_len line.old + length text.now + 20 }
    ensures room { vec_capacity line.old ≤ vec_capacity line.new }
{
    let mut digits = itoa::Buffer::new();
    push_text(line, text);
    push_text(line, digits.format(number).as_bytes());
}

/// The line, in a list without bytes that has room for it.
pub(crate) fn line_of(room: Vec<u8>, copied: &Copied) -> Vec<u8>
    requires empty { room.items ≡ [] }
    requires room { 71 ≤ vec_capacity room }
    ensures { result.items ≡ copied_line copied.now }
{
    let mut line = room;
    push_number(&mut line, b"copied @", copied.at);
    push_number(&mut line, b" ", copied.versions);
    push_number(&mut line, b" ", copied.carried);
    push_text(&mut line, b"\n");
    line
}
