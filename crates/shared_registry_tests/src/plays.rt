//! Runs a script or a talk, at a site of its own.

ghost use Rattle.std.specs.Prelude.{◌≡◌};
ghost use Rattle.entry_book.specs.History.{first_books};

use crate::failed::{Failed, as_fail};
use crate::history::explains;
use crate::scripts::plays_script;
use crate::site::Site;
use crate::talks::Talk;
use shared_registry::{NewHistory, RegistryId};
use spiffe_name::TrustDomain;
use std::alloc::Global;
use std::marker::Brand;
use std::process::Abort;
use std::sync::Wait;
use std::test::Fail;
use std::thread::Threads;
use std::time::Clock;
use test_batches::trust_domain;

/// What to run at a site that begins with the empty book.
#[derive(Clone, Copy)]
enum Play<'a> {
    Script(&'a str),
    /// A talk of eight threads, and the expected number of calls with each kind of reply.
    Talk(Talk, &'a str),
}

fn plays_on<J: RegistryId + Send + Sync, R: Threads + Wait + Clock + Abort + Print + Sync>(
    site: &Site<J, R>,
    play: Play,
) -> Result<(), Failed> {
    match play {
        Play::Script(script) => plays_script(site, script),
        Play::Talk(talk, counts) => explains(site, talk, counts),
    }
}

/// Opens a site with this history and trust domain, runs the play there, and closes it.
fn plays_at<J: RegistryId + Send + Sync, R: Threads + Wait + Clock + Abort + Print + Sync>(
    rt: &R,
    alloc: Global,
    new_history: NewHistory,
    domain: TrustDomain,
    own_domain: TrustDomain,
    seats: Option<usize>,
    play: Play,
) -> Result<(), Failed>
    requires history { new_history.seen.book ≡ J.history }
    requires first { J.first ≡ first_books }
    requires domain { (domain ≡ J.domain) × (own_domain ≡ J.domain) }
{
    let site = Site::<J, R>::open(rt, alloc, new_history, domain, own_domain, seats)?;
    let played = plays_on(&site, play);
    let closed = site.close();
    played?;
    closed
}

/// Runs a play at a site of its own.
fn plays_anew<R: Threads + Wait + Clock + Abort + Print + Sync>(
    rt: &R,
    alloc: Global,
    seats: Option<usize>,
    play: Play,
) -> Result<(), Fail> {
    let domain = trust_domain(alloc, "ex.org")?;
    let own_domain = domain.clone()?;
    let played = plays_at::<Brand, R>(
        rt,
        alloc,
        NewHistory::new(),
        domain,
        own_domain,
        seats,
        play,
    );
    as_fail(played)
}

/// Runs a script.
pub fn plays<R: Threads + Wait + Clock + Abort + Print + Sync>(
    rt: &R,
    alloc: Global,
    script: &str,
) -> Result<(), Fail> {
    plays_anew(rt, alloc, None, Play::Script(script))
}

/// Runs a script at a site with this number of seats.
pub fn plays_with_seats<R: Threads + Wait + Clock + Abort + Print + Sync>(
    rt: &R,
    alloc: Global,
    seats: usize,
    script: &str,
) -> Result<(), Fail> {
    plays_anew(rt, alloc, Some(seats), Play::Script(script))
}

/// Runs a talk of eight threads, with the expected number of calls of each kind of reply.
pub fn talks<R: Threads + Wait + Clock + Abort + Print + Sync>(
    rt: &R,
    alloc: Global,
    talk: Talk,
    counts: &str,
) -> Result<(), Fail> {
    plays_anew(rt, alloc, None, Play::Talk(talk, counts))
}
