//! The token of a reader's next line.
ghost use Rattle.std.specs.Prelude.{◌≡◌, ◌≢◌, ◌≤◌, ◌<◌, ◌+◌, ◌++◌, ◌↔◌, ◌⊎◌, ℕ, List, Option, [], All};
ghost use Rattle.std.specs.Prelude.{length, IfOk, IfErr, OnOk, OnErr, OnSome, Ok, IsOk, None, Some};
ghost use Rattle.std.specs.Io.KnownBytes.{Consumes, Keeps, IsAtEnd};
ghost use Rattle.line_reading.specs.sources.Line.{appended, line_feed, GoesOn, EndsAfter};
ghost use Rattle.line_reading.specs.sources.ReadLines.{longest_line};
ghost use Rattle.line_reading.specs.sources.NextLine.{ReadsNext, IsReadProblem};

use crate::MAX_LINE;
use crate::buffered::read_buffered_line;
use crate::line_problem::LineProblem;
use crate::search::len_before;
use crate::token_line::read_token_line;
use libyaml_types::yaml_token_t;
use std::alloc::Global;
use std::io::BufRead;

/// Reads the token of the next line: of the bytes before an LF, or of the last bytes, if none follows them.
/// Takes the line and its LF, and no byte after them. After an LF `left` is the number of bytes that are
/// still in the reader's buffer.
///
/// A line that lies whole in the buffer, with its LF, is read there; any other is copied into `line` first.
///
/// # Errors
///
/// `BadTokenLine` if the line, which is taken too, is no token line; `NoMoreTokens` at the end;
/// `LineTooLong`; `ReadFailed`; and `Memory` if an allocation fails. Then the value of `token` is
/// unspecified.
#[inline(always)]
pub(crate) fn read_next<R: BufRead>(
    alloc: Global,
    reader: &mut R,
    line: &mut Vec<u8>,
    left: &mut usize,
    token: &mut yaml_token_t,
) -> Result<(), LineProblem>
    ensures { ReadsNext (R.remaining reader.old) result token.new (R.remaining reader.new) }
{
    let available = reader.fill_buf()?;
    let within = &available[..available.len().min(MAX_LINE + 1)];
    let len = read_buffered_line(alloc, within, token)?;
    if len > 0 {
        let taken = len + 1;
        *left = available.len() - taken;
        reader.consume(taken);
        return Ok(());
    }
    let len = len_before(within, b'\n');
    if len < within.len() {
        let read = read_token_line(alloc, &within[..len], token);
        let behind = len + 1;
        *left = available.len() - behind;
        reader.consume(behind);
        return read;
    }
    begin_line(line, within)?;
    reader.consume(len);
    read_copied(alloc, reader, line, left, token)
}

/// Puts the first bytes of a line into `line`, and nothing else.
///
/// # Errors
///
/// `NoMoreTokens` if there are none, and `Memory` if an allocation fails.
#[cold]
fn begin_line(line: &mut Vec<u8>, first: &[u8]) -> Result<(), LineProblem>
    ensures ok { OnOk result (line.new.items ≡ first.now) }
    ensures some { OnOk result (0 < length first.now) }
    ensures none { result ≡ Err LineProblem.NoMoreTokens → length first.now ≡ 0 }
    ensures problem { IfErr result
        (λ problem. (problem ≡ LineProblem.Memory) ⊎ (problem ≡ LineProblem.NoMoreTokens)) }
{
    if first.is_empty() {
        return Err(LineProblem::NoMoreTokens);
    }
    line.clear();
    append(line, first)
}

/// Reads the token of a line whose first bytes are in `line`, after the rest of it is there too.
#[cold]
fn read_copied<R: BufRead>(
    alloc: Global,
    reader: &mut R,
    line: &mut Vec<u8>,
    left: &mut usize,
    token: &mut yaml_token_t,
) -> Result<(), LineProblem>
    requires some { 0 < length line.old.items }
    requires clean { All (λ x. x ≢ 10) line.old.items }
    requires fits { length line.old.items ≤ longest_line + 1 }
    ensures { (before : Option (List ℕ)) → Consumes before (R.remaining reader.old) line.old.items
        → ReadsNext before result token.new (R.remaining reader.new) }
{
    match take_rest(reader, line, left)? {
        None => Err(LineProblem::LineTooLong),
        Some(_) => read_token_line(alloc, line, token),
    }
}

/// How a line ended.
#[derive(Copy, Clone)]
enum LineEnd {
    LineFeed,
    End,
}

/// Takes the rest of a line whose first bytes are in `line`: up to an LF, which is taken too, or to the end.
/// Returns how it ended, or `None` after `MAX_LINE` + 1 bytes of it without a line end.
fn take_rest<R: BufRead>(
    reader: &mut R,
    line: &mut Vec<u8>,
    left: &mut usize,
) -> Result<Option<LineEnd>, LineProblem>
    requires clean { All (λ x. x ≢ 10) line.old.items }
    requires fits { length line.old.items ≤ longest_line + 1 }
    ensures consumes { IfOk result (λ end. GoesOn (R.remaining reader.old) (R.remaining reader.new)
        line.old.items (line.new.items ++ line_feed end)) }
    ensures clean { All (λ x. x ≢ 10) line.new.items }
    ensures longer { length line.old.items ≤ length line.new.items }
    ensures fits { length line.new.items ≤ longest_line + 1 }
    ensures too_long { result ≡ Ok None ↔ ((length line.new.items ≡ longest_line + 1)
        × IsOk result) }
    ensures end { result ≡ Ok (Some LineEnd.End)
        → EndsAfter (R.remaining reader.old) (R.remaining reader.new) line.old.items }
    ensures err { OnErr result (GoesOn (R.remaining reader.old) (R.remaining reader.new)
        line.old.items line.new.items) }
    ensures problem { IfErr result IsReadProblem }
{
    while line.len() <= MAX_LINE {
        let room = MAX_LINE + 1 - line.len();
        match take_buffered(reader, line, room, left)? {
            None => {}
            Some(end) => return Ok(Some(end)),
        }
    }
    Ok(None)
}

/// Moves bytes of one line, `room` with its LF at most, from the reader's buffer to the end of `line`.
/// Returns how the line ended, if it ended with these bytes.
fn take_buffered<R: BufRead>(
    reader: &mut R,
    line: &mut Vec<u8>,
    room: usize,
    left: &mut usize,
) -> Result<Option<LineEnd>, LineProblem>
    requires { 0 < room }
    ensures appends { line.new.items ≡ line.old.items ++ appended line.old.items line.new.items }
    ensures consumes { IfOk result
        (λ end. Consumes (R.remaining reader.old) (R.remaining reader.new)
        (appended line.old.items line.new.items ++ line_feed end)) }
    ensures clean { All (λ x. x ≢ 10) (appended line.old.items line.new.items) }
    ensures fits { IfOk result (λ end. length (appended line.old.items line.new.items) + length
        (line_feed end) ≤ room) }
    ensures err { OnErr result (line.new.items ≡ line.old.items) }
    ensures keeps { OnErr result (Keeps (R.remaining reader.old) (R.remaining reader.new)) }
    ensures more { result ≡ Ok None → 0 < length (appended line.old.items line.new.items) }
    ensures at_end { result ≡ Ok (Some LineEnd.End)
        → OnSome (R.remaining reader.old) (IsAtEnd (R.remaining reader.new)) }
    ensures end { result ≡ Ok (Some LineEnd.End) → line.new.items ≡ line.old.items }
    ensures problem { IfErr result IsReadProblem }
{
    let available = reader.fill_buf()?;
    if available.is_empty() {
        return Ok(Some(LineEnd::End));
    }
    let within = &available[..available.len().min(room)];
    let len = len_before(within, b'\n');
    append(line, &within[..len])?;
    if len < within.len() {
        *left = available.len() - (len + 1);
        reader.consume(len + 1);
        return Ok(Some(LineEnd::LineFeed));
    }
    reader.consume(len);
    Ok(None)
}

#[tactic(auto, using(crate::proofs::sources::Appended::appended_is))]
fn append(line: &mut Vec<u8>, bytes: &[u8]) -> Result<(), LineProblem>
    ensures ok { OnOk result ((line.new.items ≡ line.old.items ++ bytes.now)
        × (appended line.old.items line.new.items ≡ bytes.now)) }
    ensures err { OnErr result (line.new.items ≡ line.old.items) }
    ensures problem { IfErr result (λ problem. problem ≡ LineProblem.Memory) }
{
    Ok(line.extend_from_slice(bytes)?)
}
