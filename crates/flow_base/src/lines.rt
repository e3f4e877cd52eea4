ghost use Rattle.std.specs.Prelude.{◌≡◌, ◌≢◌, ◌<◌, ◌≤◌, ◌+◌, ◌++◌, ◌==◌, ◌||◌, [], ◌∷◌, ℕ, List, All, length, take, true, false, IfOk, IsErr, IsSome, min};
ghost use Rattle.flow_base.specs.Causes.{HasCause};
ghost use Rattle.flow_base.specs.Flow.{behind};
ghost use Rattle.flow_base.specs.LinesRead.{IsCut};

use crate::{Ahead, Failed, Source};

/// How a line that is read ends.
#[derive(Clone, Copy, Debug, PartialEq, Eq)]
pub enum LineEnd {
    /// With its line feed.
    Whole,
    /// It has 1,024 bytes and no line feed.
    Long,
    /// The input has ended before.
    Unfinished,
}

/// A line at the front of the buffer.
#[derive(Clone, Copy, Debug, PartialEq, Eq)]
pub struct LineRead {
    pub len: usize,
    pub end: LineEnd,
}

// How many bytes of the window belong to the line, where it has room for so many more, and whether
// the last of them is its line feed.
fn cut_line(window: &[u8], room: usize) -> (usize, bool)
    requires { (0 < length window.now) × (0 < room) }
    ensures { IsCut window.now room result.0 result.1 }
{
    let most = room.min(window.len());
    let mut at = 0;
    while at < most {
        if window[at] == b'\n' {
            return (at + 1, true);
        }
        at += 1;
    }
    (most, false)
}

// Writes the bytes behind the first so many.
fn put_behind(into: &mut [u8; 1024], len: usize, bytes: &[u8])
    requires { len + length bytes.now ≤ 1024 }
    ensures { take (len + length bytes.now) into.new ≡ take len into.old ++ bytes.now }
{
    let end = len + bytes.len();
    into[len..end].copy_from_slice(bytes);
}

impl<'a, S: Source> Ahead<'a, S> {
    ghost use Rattle.flow_base.specs.LinesRead.{left_of, IsLine, BrokeOff};

    /// Reads a line to the front of the buffer: up to its line feed, or 1,024 bytes, or the end of
    /// input, whatever comes first.
    pub fn read_line(&mut self, into: &mut [u8; 1024]) -> Result<LineRead, Failed>
        ensures same_reference { self.new.source.ghost_name ≡ self.old.source.ghost_name }
        ensures len { IfOk result (λ line. line.len ≤ 1024) }
        ensures given { IfOk result (λ line. left_of S.left self.old ≡ behind (take line.len into.new) (left_of S.left self.new)) }
        ensures line { IfOk result (λ line. IsLine (left_of S.left self.new) (take line.len into.new) line.end) }
        ensures front { (given : List ℕ) × (left_of S.left self.old ≡ behind given (left_of S.left self.new)) }
        ensures broken { IsErr result → BrokeOff (left_of S.left self.old) (left_of S.left self.new) }
        ensures drained { IsErr result → self.new.window ≡ [] }
        ensures cause { HasCause (S.faults self.old.source.now) (S.faults self.new.source.now) result }
    {
        let mut len = 0;
        while len < 1024 {
            self.fill()?;
            let window = self.window();
            if window.is_empty() {
                return Ok(LineRead {
                    len,
                    end: LineEnd::Unfinished,
                });
            }
            let (count, ended) = cut_line(window, 1024 - len);
            put_behind(into, len, &window[..count]);
            self.pass(count);
            len += count;
            if ended {
                return Ok(LineRead {
                    len,
                    end: LineEnd::Whole,
                });
            }
        }
        Ok(LineRead {
            len,
            end: LineEnd::Long,
        })
    }
}
