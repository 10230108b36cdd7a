//! The line of an event, put together in a small buffer.

ghost use Rattle.std.specs.Prelude.{◌≡◌, ◌<◌, ◌≤◌, ◌+◌, ◌++◌, [], false, length, decimal};
ghost use Rattle.arrayvec.specs.ArrayVec.{array_vec_len};
ghost use Rattle.serde_json.specs.Written.{comma_if};
ghost use Rattle.nt_draws.specs.Draws.{after_draws};
ghost use Rattle.nt_draws.specs.Events.{drawn_ids, after_event};
ghost use Rattle.nt_draws.specs.Lines.{ids_text, made_line};

use crate::drawing::draw;
use arrayvec::ArrayVec;
use itoa::Buffer;

/// Room for a line, which has at most 36 bytes.
pub(crate) const ROOM: usize = 40;

/// Puts bytes behind those of a line.
fn put(line: &mut ArrayVec<u8, ROOM>, bytes: &[u8])
    requires { array_vec_len line.old + length bytes.now ≤ 40 }
    ensures line { line.new.items ≡ line.old.items ++ bytes.now }
    ensures len { array_vec_len line.new ≡ array_vec_len line.old + length bytes.now }
{
    match line.try_extend_from_slice(bytes) {
        Ok(()) => {}
        Err(_) => unreachable!(),
    }
}

/// Puts the digits of a number behind a line.
fn put_number(line: &mut ArrayVec<u8, ROOM>, number: u32)
    requires small { number < 1000000 }
    requires room { array_vec_len line.old ≤ 34 }
    ensures line { line.new.items ≡ line.old.items ++ decimal number }
    ensures len { array_vec_len line.new ≤ array_vec_len line.old + 6 }
{
    let mut digits = Buffer::new();
    put(line, digits.format(number).as_bytes());
}

/// Puts an id behind a line, and a comma before it where others stand there.
fn put_id(line: &mut ArrayVec<u8, ROOM>, later: bool, id: u32)
    requires small { id < 1000000 }
    requires room { array_vec_len line.old ≤ 33 }
    ensures line { line.new.items ≡ line.old.items ++ (comma_if later ++ decimal id) }
    ensures len { array_vec_len line.new ≤ array_vec_len line.old + 7 }
{
    if later {
        line.push(b',');
    }
    put_number(line, id);
}

/// Puts so many ids and a bracket behind a line, and says which number was drawn last.
fn put_ids(line: &mut ArrayVec<u8, ROOM>, count: u32, number: u32) -> u32
    requires few { count < 4 }
    requires room { array_vec_len line.old ≤ 12 }
    ensures number { result ≡ after_draws count number }
    ensures line { line.new.items ≡ line.old.items ++ ids_text false (drawn_ids count number) }
    ensures len { array_vec_len line.new ≤ array_vec_len line.old + 22 }
{
    let mut left = count;
    let mut last = number;
    let mut later = false;
    while left > 0 {
        last = draw(last);
        put_id(line, later, last % 1000000);
        later = true;
        left -= 1;
    }
    line.push(b']');
    last
}

/// Makes the line of the event behind a number, and says which number was drawn last.
pub(crate) fn put_event(line: &mut ArrayVec<u8, ROOM>, number: u32) -> u32
    requires { line.old.items ≡ [] }
    ensures number { result ≡ after_event number }
    ensures line { line.new.items ≡ made_line number }
{
    let run = draw(number);
    line.push(b'[');
    put_number(line, run % 1000);
    put(line, b",[");
    let count = draw(run);
    let last = put_ids(line, count % 4, count);
    let tag = draw(last);
    put(line, b",\"t");
    line.push(b'0' + (tag % 10) as u8);
    put(line, b"\"]\n");
    tag
}
