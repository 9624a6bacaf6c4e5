//! Passing bytes on to a sink.
ghost use Rattle.std.specs.Prelude.{◌≡◌, ◌≤◌, ◌<◌, ◌++◌, length, take, IfNone, IfSome};
ghost use Rattle.std.specs.IoError.{error_kind};

use super::sink::Sink;
use std::io;

/// How many of some bytes a sink took, and why it took no more.
#[derive(Drop)]
pub(crate) struct Passed {
    pub(crate) taken: usize,
    pub(crate) error: Option<io::Error>,
}

/// Passes the bytes on, in as many pieces as the sink makes of them, until it fails.
pub(crate) fn pass<S: Sink>(sink: &mut S, bytes: &[u8]) -> Passed
    ensures within { result.taken ≤ length bytes.now }
    ensures sent { (S.state sink.new).sent ≡ (S.state sink.old).sent ++ take result.taken bytes.now }
    ensures unflushed { (S.state sink.new).flushed ≡ (S.state sink.old).flushed }
    ensures all { IfNone result.error ((result.taken ≡ length bytes.now) × ((S.state sink.new).failures ≡ (S.state sink.old).failures)) }
    ensures failed { IfSome result.error (λ e. (0 < (S.state sink.new).failures) × ((S.state sink.new).last ≡ error_kind e)) }
{
    let mut taken = 0;
    while taken < bytes.len() {
        match sink.write_some(&bytes[taken..]) {
            Ok(0) => {
                return Passed {
                    taken,
                    error: Some(io::Error::from(io::ErrorKind::WriteZero)),
                };
            }
            Ok(n) => taken += n,
            Err(e) => {
                return Passed {
                    taken,
                    error: Some(e),
                };
            }
        }
    }
    Passed { taken, error: None }
}
