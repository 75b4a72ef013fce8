//! Reading what a reader has into a lent buffer, as far as there is room.
#![tactic(auto)]

ghost use Rattle.std.specs.Prelude.{◌≡◌, ◌≤◌, ◌<◌, length, take, MatchResult, IfOk, IfErr};
ghost use Rattle.std.specs.Io.KnownBytes.{Consumes, IsAtEnd};

use std::io::Read;

/// A read failed, after so many bytes were put at the front of the buffer.
#[derive(Clone, Copy, Debug, PartialEq, Eq)]
pub struct ReadFailed {
    pub after: usize,
}

/// Reads until the buffer is full or the input ends, and returns how many bytes it put at the buffer's front. Behind them the buffer holds what the
/// reads left there.
#[tactic(auto, using(crate::proofs::More::consumes_more))]
pub fn read_full<R: Read>(input: &mut R, buf: &mut [u8]) -> Result<usize, ReadFailed>
    ensures within { IfOk result (λ n. n ≤ length buf.new) }
    ensures bytes { IfOk result (λ n. Consumes (R.remaining input.old) (R.remaining input.new) (take n buf.new)) }
    ensures whole { IfOk result (λ n. n < length buf.new → IsAtEnd (R.remaining input.new)) }
    ensures early { IfErr result (λ e. e.after < length buf.new) }
    ensures early_bytes { IfErr result (λ e. Consumes (R.remaining input.old) (R.remaining input.new) (take e.after buf.new)) }
{
    // std's `read_exact` has this loop; of an input that ends or fails before, it tells neither the bytes nor how many.
    let mut at = 0;
    while at < buf.len() {
        match input.read(&mut buf[at..]) {
            Ok(0) => return Ok(at),
            Ok(n) => at += n,
            Err(_) => return Err(ReadFailed { after: at }),
        }
    }
    Ok(at)
}

/// How many bytes were read, whether or not a read then failed.
pub fn read_so_far(read: Result<usize, ReadFailed>) -> usize
    ensures { MatchResult read (λ n. result ≡ n) (λ e. result ≡ e.after) }
{
    read.unwrap_or_else(|failed| failed.after)
}
