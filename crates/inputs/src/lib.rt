// What a program that plays a script is given: room for it, its bytes, and a word of complaint where they cannot be had.
#![tactic(auto)]

ghost use Rattle.std.specs.Prelude.{◌≡◌, ◌≤◌, ◌↔◌, length, IsTrue};
ghost use Rattle.std.specs.Process.{exit_status};
ghost use Rattle.std.specs.IoError.{error_kind};
ghost use Rattle.inputs.specs.Ending.{status_of};
ghost use Rattle.inputs.specs.declared.Ended.TheVariants.{Failed};

use std::env::{Env, FillError};
use std::fs::{Files, OpenOptions};
use std::io::{ErrorKind, Read, Write};
use std::process::ExitCode;
use std::{fmt, io};

// Descriptor 3, by name: std opens a file by its name alone. (Linux keeps it there.)
const REPORT: &str = "/dev/fd/3";

// One byte more than a script may have, so that one that is too long is seen. (Apart, so that the proof of the function that asks for it does not carry each byte.)
pub fn script_room() -> [u8; 65537]
    ensures { 65537 ≡ length result }
{
    [0; 65537]
}

// The start of a text, as far as there is room.
#[derive(Drop)]
struct Start {
    bytes: [u8; 256],
    length: usize,
    ghost within: { length ≤ 256 },
}

impl fmt::Write for Start {
    fn write_str(&mut self, s: &str) -> fmt::Result {
        let text = s.as_bytes();
        let end = self.length + text.len().min(256 - self.length);
        self.bytes[self.length..end].copy_from_slice(&text[..end - self.length]);
        self.length = end;
        Ok(())
    }
}

impl Start {
    // What stands before the last " (os error ": std puts an error's number behind the system's text of it.
    fn text(&self) -> &[u8] {
        let mark = b" (os error ";
        for back in 11..self.length {
            let at = self.length - back;
            if self.bytes[at..].starts_with(mark) {
                return &self.bytes[..at];
            }
        }
        &self.bytes[..self.length]
    }
}

// One line: the launcher's name, whose name it is, what could not be done with it, and the system's text of the error. The program has
// failed then, as the answer says.
pub fn complain<W: Write>(to: &mut W, name: &[u8], what: &[u8], why: io::Error) -> Ended
    ensures { result ≡ Failed }
{
    let mut said = Start {
        bytes: [0; 256],
        length: 0,
    };
    let _ = fmt::Write::write(&mut said, why);
    let _ = to.write_all(b"play: ");
    let _ = to.write_all(name);
    let _ = to.write_all(what);
    let _ = to.write_all(b": ");
    let _ = to.write_all(said.text());
    let _ = to.write_all(b"\n");
    Ended::Failed
}

// What was read: how many bytes, and the read that failed, where one did. (No Result: `mixes` plays what came before a failed read.)
#[derive(Clone, Copy)]
pub struct Input {
    pub length: usize,
    pub failure: Option<io::Error>,
}

// What a reader gives, as far as there is room.
pub fn read_input<R: Read>(source: &mut R, script: &mut [u8]) -> Input
    ensures { result.length ≤ length script.new }
{
    let mut length = 0;
    // The reader says when it ends. (std's read_exact wants the room filled, and read_to_end a Vec; here is no heap.)
    while length < script.len() {
        match source.read(&mut script[length..]) {
            Ok(0) => break,
            Ok(n) => length += n,
            Err(e) => {
                return Input {
                    length,
                    failure: Some(e),
                };
            }
        }
    }
    Input {
        length,
        failure: None,
    }
}

// Whether there is an argument of this number; the program's name is number 0.
pub fn has_argument<R: Env>(rt: &R, number: usize) -> bool {
    let mut start = [0u8; 1];
    !matches!(rt.arg(number, &mut start), Err(FillError::NotPresent))
}

// The last word for the launcher, on descriptor 3; where it is a file, the word goes to its end, however it was opened.
fn report<R: Files>(rt: &R, word: &[u8]) -> io::Result<()>
where
    R::File: Drop,
{
    let mut to = OpenOptions::new().append(true).open(rt, REPORT)?;
    to.write_all(word)
}

// The exit status where nobody reads any more: what a shell tells of a program that SIGPIPE ended. (std ignores that signal.)
pub const UNREAD: u8 = 141;

// How a program ended. `Unread`: nobody reads what it writes any more.
#[derive(Clone, Copy)]
pub enum Ended {
    Done,
    Failed,
    Unread,
}

// Whether a write failed because nobody reads any more, as where `head` has seen enough.
pub fn is_unread(why: &io::Error) -> bool
    ensures { IsTrue result ↔ (error_kind why.now ≡ ErrorKind.BrokenPipe) }
{
    matches!(why.kind(), ErrorKind::BrokenPipe)
}

// The exit status: UNREAD, without a word, where nobody reads any more. Else 0, and where the launcher asks for it the last word; where
// that cannot be written, nothing is said.
pub fn leave<R: Files>(rt: &R, ended: Ended, asked: bool) -> ExitCode
where
    R::File: Drop,
    ensures { exit_status result ≡ status_of ended }
{
    let word = match ended {
        Ended::Unread => return ExitCode::from(UNREAD),
        Ended::Done => b"done\n".as_slice(),
        Ended::Failed => b"failed\n".as_slice(),
    };
    if asked {
        let _ = report(rt, word);
    }
    ExitCode::SUCCESS
}
