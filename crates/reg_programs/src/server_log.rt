//! What does a server without a last connection write to standard error?

use crate::server_counts::{Counts, Due, ServerCounts};
use spiffe_name::TrustDomain;
use std::io;
use std::io::Eprint;
use std::net::SocketAddr;
use std::sync::Wait;
use std::time::{Clock, Duration};

/// Writes the line at the start of a server.
pub(crate) fn write_start<R: Eprint>(
    rt: &R,
    domain: &TrustDomain,
    address: SocketAddr,
    workers: usize,
) -> io::Result<()> {
    eprintln!(rt; "regd: serving {domain} at {address}: {workers} workers, no last connection")
}

/// Writes a line each time that one is due, at the latest after this time without one. Returns after the line that says that the
/// server has ended.
pub fn write_lines<R: Wait + Clock + Eprint>(rt: &R, counts: &ServerCounts, time: Duration) {
    for _ in rt.forever() {
        let (due, counts) = counts.next(rt, time);
        // if standard error fails, there is no way left to report it
        let _ = write_counts(rt, due, counts);
        if due == Due::End {
            break;
        }
    }
}

/// Writes a line with the counts.
fn write_counts<R: Eprint>(rt: &R, due: Due, counts: Counts) -> io::Result<()> {
    let Counts {
        accepted,
        begun,
        ended,
        failures,
    } = counts;
    match due {
        Due::Time => {
            eprintln!(rt;
                "regd: serving: {accepted} connections accepted, {begun} begun, {ended} ended"
            )
        }
        Due::Failures => {
            eprintln!(rt;
                "regd: accept has failed {failures} times in a row: {accepted} connections accepted, {begun} begun, {ended} ended"
            )
        }
        Due::End => {
            eprintln!(rt;
                "regd: served: {accepted} connections accepted, {begun} begun, {ended} ended"
            )
        }
    }
}
