//! What the versions of small worked books read.

use crate::playing::plays;
use std::test::Fail;

/// An update moves the entry in every mark, and older versions read as before.
const MOVED: &str = "
set_bundle d1
set_bundle d2
create 1 /a /x u:1 5 d1
update 1 /b /y u:1 9 d2
READS 4: entry 1 => 1.1
READS 4: group /a /x =>
READS 4: group /a /y =>
READS 4: group /b /x =>
READS 4: group /b /y => 1.1
READS 4: children /a =>
READS 4: children /b => 1.1
READS 4: users d1 =>
READS 4: users d2 => 1.1
READS 4: expiring 6 =>
READS 4: expiring 10 => 1.1
COUNT 4 => 1 0 2 0 at 4
delete 1
READS 5: entry 1 =>
READS 5: group /b /y =>
READS 5: users d2 =>
READS 5: expiring 10 =>
COUNT 5 => 0 0 2 0 at 5
drop_bundle d2 restrict
READS 6: bundle d2 =>
COUNT 6 => 0 0 1 0 at 6
READS 4: group /b /y => 1.1
CLONE 4: group /b /y => 1.1
CLONE 5: group /b /y =>
READS 3: entry 1 => 1.0
READS 3: group /a /x => 1.0
READS 3: group /b /y =>
READS 3: users d1 => 1.0
READS 3: users d2 =>
READS 3: expiring 6 => 1.0
READS 2: entry 1 =>
COUNT 2 => 0 0 2 0 at 2
COUNT 0 => 0 0 0 0 at 0
SERVER 0 => spiffe://ex.org/spire/server
SERVER 6 => spiffe://ex.org/spire/server
";

/// Two domains, an expiry of 0, the moment itself, children in the order of their ids, adjacent parents.
const READ: &str = "
set_bundle d1
set_bundle d2
create 3 /a /x u:3 0 d2 d1
create 2 /a /y u:2 7 d2
create 1 /a /z u:1 3
create 5 /ab /x u:5 7
create 4 /a/b /x u:4 0
READS 7: users d1 => 3.0
READS 7: users d2 => 2.0 3.0
READS 7: users d3 =>
READS 7: expiring 0 =>
READS 7: expiring 3 =>
READS 7: expiring 4 => 1.0
READS 7: expiring 7 => 1.0
READS 7: expiring 8 => 1.0 2.0 5.0
READS 7: children /a => 1.0 2.0 3.0
READS 7: children /ab => 5.0
READS 7: children /a/b => 4.0
READS 7: children /x =>
READS 7: all => 1.0 2.0 3.0 4.0 5.0
READS 1: all =>
READS 7: group /a /x => 3.0
READS 7: group /ab /x => 5.0
prune 7
READS 8: children /a => 2.0 3.0
READS 8: expiring 8 => 2.0 5.0
drop_bundle d2 dissociate
READS 9: users d1 => 3.1
READS 9: users d2 =>
READS 9: bundle d2 =>
READS 9: children /a => 2.1 3.1
drop_bundle d1 delete
READS 10: entry 3 =>
READS 10: all => 2.1 4.0 5.0
COUNT 10 => 3 0 0 0 at 10
CLONE 7: all => 1.0 2.0 3.0 4.0 5.0
CLONE 7: entry 3 => 3.0
CLONE 7: children /a => 1.0 2.0 3.0
CLONE 7: users d2 => 2.0 3.0
CLONE 7: expiring 8 => 1.0 2.0 5.0
";

/// The server's entries are the aliases, and those of adjacent IDs aren't.
const ALIASES: &str = "
create 2 /spire/server /x u:2 0
create 1 /spire/server /y u:1 0
create 3 /spire/serve /x u:3 0
create 4 /spire/server/a /x u:4 0
ALIASES 0 =>
ALIASES 1 => 2.0
ALIASES 4 => 1.0 2.0
READS 4: children /spire/server => 1.0 2.0
update 1 /a /y u:1 0
ALIASES 5 => 2.0
update 1 /spire/server /z u:1 0
ALIASES 6 => 1.2 2.0
delete 2
ALIASES 7 => 1.2
ALIASES 4 => 1.0 2.0
";

/// Agents and bundles, and whether their marks are unchanged.
const ROWS: &str = "
set_agent /spire/agent/m u:1
set_bundle d1
set_agent /spire/agent/m u:1
set_bundle d1
READS 2: agent /spire/agent/m => agent u:1
READS 2: agent /spire/agent/n =>
READS 2: bundle d1 => bundle 0
READS 4: bundle d1 => bundle 1
READS 4: bundle d2 =>
SAME 2 1: agent /spire/agent/m => yes
SAME 3 2: agent /spire/agent/m => no
SAME 4 2: agent /spire/agent/n => yes
SAME 3 2: bundle d1 => yes
SAME 4 2: bundle d1 => no
SAME 4 2: bundle d2 => yes
drop_agent /spire/agent/m
READS 5: agent /spire/agent/m =>
SAME 5 4: agent /spire/agent/m => no
SAME 5 0: agent /spire/agent/m => yes
COUNT 4 => 0 1 1 0 at 4
COUNT 5 => 0 0 1 0 at 5
CLONE 4: agent /spire/agent/m => agent u:1
CLONE 4: bundle d1 => bundle 1
";

/// A row that is created and then deleted leaves all marks as they were; a row that is overwritten doesn't.
const UNCHANGED: &str = "
set_bundle d1
create 1 /a /x u:1 4
create 2 /a /y u:2 6 d1
delete 2
SAME 3 2: entry 2 => no
SAME 3 2: group /a /y => no
SAME 3 2: children /a => no
SAME 3 2: users d1 => no
SAME 3 2: expiring 7 => no
SAME 3 2: all => no
SAME 3 2: expiring 6 => yes
SAME 3 2: entry 1 => yes
SAME 3 2: group /a /x => yes
SAME 3 2: children /b => yes
SAME 3 2: users d2 => yes
SAME 4 2: entry 2 => yes
SAME 4 2: group /a /y => yes
SAME 4 2: children /a => yes
SAME 4 2: users d1 => yes
SAME 4 2: expiring 7 => yes
SAME 4 2: all => yes
SAME 1 0: all => yes
SAME 4 3: children /a => no
update 1 /a /x u:1 4
SAME 5 4: entry 1 => no
SAME 5 4: group /a /x => no
SAME 5 4: children /a => no
SAME 5 4: expiring 5 => no
SAME 5 4: expiring 4 => yes
SAME 5 5: entry 1 => yes
delete 1
create 1 /a /x u:1 4
SAME 7 5: entry 1 => no
SAME 7 2: children /a => no
SAME 6 0: children /a => yes
READS 3: children /a => 1.0 2.0
READS 5: children /a => 1.1
";

/// The row of a token has the number of its batch's own version, and stays.
const KEPT: &str = "
token 7; set_agent /spire/agent/m u:1
set_bundle d1
token 8; set_bundle d1; set_bundle d2
READS 0: token 7 =>
READS 1: token 7 => 1 ops at 1
READS 1: token 8 =>
READS 3: token 7 => 1 ops at 1
READS 3: token 8 => 2 ops at 3
READS 3: token 9 =>
READS 1: agent /spire/agent/m => agent u:1
SAME 1 0: token 7 => no
SAME 1 0: token 8 => yes
SAME 2 1: token 7 => yes
SAME 3 1: token 7 => yes
SAME 3 2: token 8 => no
SAME 3 2: all => yes
COUNT 1 => 0 1 0 1 at 1
COUNT 3 => 0 1 2 2 at 3
CLONE 3: token 8 => 2 ops at 3
CLONE 3: token 9 =>
";

#[test]
fn an_update_moves_an_entry_in_every_mark(rt: HostRuntime) -> Result<(), Fail> {
    plays(&rt, rt.alloc(), MOVED)
}

#[test]
fn marks_read_their_own_rows(rt: HostRuntime) -> Result<(), Fail> {
    plays(&rt, rt.alloc(), READ)
}

#[test]
fn the_entries_of_the_server_are_the_aliases(rt: HostRuntime) -> Result<(), Fail> {
    plays(&rt, rt.alloc(), ALIASES)
}

#[test]
fn agents_and_bundles_are_read_and_compared(rt: HostRuntime) -> Result<(), Fail> {
    plays(&rt, rt.alloc(), ROWS)
}

#[test]
fn marks_are_unchanged_where_their_rows_are(rt: HostRuntime) -> Result<(), Fail> {
    plays(&rt, rt.alloc(), UNCHANGED)
}

#[test]
fn a_token_is_kept_with_its_place(rt: HostRuntime) -> Result<(), Fail> {
    plays(&rt, rt.alloc(), KEPT)
}
