// Writing in pieces.
ghost use Rattle.std.specs.Prelude.{◌≡◌, ◌<◌, ◌≤◌, length, take, IfOk, OnOk, OnErr};
ghost use Rattle.pk_outside.specs.Allowing.{IsFree};
ghost use Rattle.pk_outside.specs.Causes.{FailsLast, HasCause};
ghost use Rattle.pk_outside.specs.Streams.{Got, GotFront, WriteGot};
ghost use Rattle.journal_segments.specs.declared.pieces.TheConstants.{MAX_WRITE};

use pk_outside::{Failed, Sink};

/// How many bytes one write hands over at most: 64 KiB.
pub const MAX_WRITE: usize = 65_536;

/// As many of the first bytes as one write hands over.
fn piece_of(bytes: &[u8]) -> &[u8]
    ensures piece { result.now ≡ take MAX_WRITE bytes.now }
{
    if MAX_WRITE < bytes.len() {
        let (piece, _) = bytes.split_at(MAX_WRITE);
        piece
    } else {
        bytes
    }
}

/// Writes the first of the bytes, at least one of them and at most `MAX_WRITE`. The answer is their number.
///
/// # Errors
/// `Failed` where the file failed and counted one fault; nothing was written.
fn write_first<F: Sink>(file: &mut F, bytes: &[u8]) -> Result<usize, Failed>
    requires some { 0 < length bytes.now }
    requires free { IsFree F.allowed }
    ensures bound { IfOk result (λ n. (0 < n) × (n ≤ length bytes.now)) }
    ensures bytes { WriteGot (F.held file.old) (F.held file.new) result bytes.now }
    ensures same { F.path file.new ≡ F.path file.old }
    ensures cause { HasCause (F.faults file.old) (F.faults file.new) result }
    ensures quiet { OnOk result (F.faults file.new ≡ F.faults file.old) }
{
    file.write(piece_of(bytes))
}

/// Writes all of the bytes, at most `MAX_WRITE` of them at a time.
///
/// # Errors
/// `Failed` where the last write failed and counted one fault; a prefix of the bytes was written,
/// and nothing is asked of the file after it.
pub fn write_pieces<F: Sink>(file: &mut F, bytes: &[u8]) -> Result<(), Failed>
    requires free { IsFree F.allowed }
    ensures ok { OnOk result (Got (F.held file.old) (F.held file.new) bytes.now) }
    ensures err { OnErr result (GotFront (F.held file.old) (F.held file.new) bytes.now) }
    ensures same { F.path file.new ≡ F.path file.old }
    ensures quiet { OnOk result (F.faults file.new ≡ F.faults file.old) }
    ensures last { OnErr result (FailsLast F.held F.faults file.old file.new) }
{
    let mut rest = bytes;
    while !rest.is_empty() {
        let n = write_first(file, rest)?;
        let (_, after) = rest.split_at(n);
        rest = after;
    }
    Ok(())
}
