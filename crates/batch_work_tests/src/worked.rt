//! What works read on small worked books, mark by mark, and their outcomes.

use crate::playing::plays;
use std::test::Fail;

/// Two identities, each the parent of the other.
const CYCLE: &str = "
set_agent n1 x:1
create 1 n1 /A x:1 0; create 2 /A /B x:1 0; create 3 /B /A x:1 0
READS authorised n1 => agent n1 | children /spire/server | children n1 | children /A | children /B
COMES authorised n1 => answered at 2; entries 1.0 2.0 3.0
";

/// An agent holds an alias if it has its selectors, whatever others it has.
const ALIAS: &str = "
set_agent n1 x:1,x:2,x:3; set_agent n2 x:1
create 1 /spire/server /alias x:1,x:2 0; create 2 /alias /web x:1 0; create 3 /web /side x:1 0
READS authorised n1 => agent n1 | children /spire/server | children n1 | children /alias | children /web | children /side
COMES authorised n1 => answered at 2; entries 1.0 2.0 3.0
READS authorised n2 => agent n2 | children /spire/server | children n2
COMES authorised n2 => answered at 2; entries
READS authorised n3 => agent n3
COMES authorised n3 => refused O7 at 2; operation 0
";

/// Each operation reads what the earlier ones of its batch left.
const BUNDLE: &str = "
set_bundle b.org
READS create 1 n1 /web x:1 0 b.org; drop_bundle b.org dissociate; show 1 => entry 1 | group n1 /web | bundle b.org | bundle b.org | users b.org | entry 1
COMES create 1 n1 /web x:1 0 b.org; drop_bundle b.org dissociate; show 1 => ready; entry 1.0 b.org; dropped / 1; shown 1.1
";

const TRUST: &str = "
set_agent n1 x:1
set_bundle b.org
create 1 n1 /web x:1 0 b.org
READS trust n1 => agent n1 | children /spire/server | children n1 | children /web | bundle b.org
COMES trust n1 => answered at 3; bundles bundle b.org 0
";

/// A read that leads to a refusal is the last one.
const REFUSED: &str = "
create 1 n1 /web x:1 0
READS create 1 n1 /api x:1 0 => entry 1
COMES create 1 n1 /api x:1 0 => refused O1 at 1; operation 0
READS create 2 n1 /web x:1 0 => entry 2 | group n1 /web
COMES create 2 n1 /web x:1 0 => refused O2 at 1; operation 0 by 1
READS create 2 n1 /web x:2 0 b.org c.org => entry 2 | group n1 /web | bundle b.org
COMES create 2 n1 /web x:2 0 b.org c.org => refused O5 at 1; operation 0 without b.org
READS show 1; delete 2; show 3 => entry 1 | entry 2
COMES show 1; delete 2; show 3 => refused O3 at 1; operation 1
";

/// A page of an earlier book reads that book; one without a number reads what its batch left.
const PAGES: &str = "
READS page 9 1 - => all
COMES page 9 1 - => refused O8 at 0; operation 0
create 1 n1 /web x:1 0
create 2 n1 /api x:1 0
READS page 9 1 - => all
COMES page 9 0 - => answered at 2; page
COMES page 9 1 - => answered at 2; page 1.0
COMES page 9 2 - => answered at 2; page 1.0 2.0
COMES page 1 2 - => answered at 2; page 1.0 next 1
COMES page 9 3 - => refused O8 at 2; operation 0
READS create 3 n1 /side x:1 0; page 9 - - => entry 3 | group n1 /side | all
COMES create 3 n1 /side x:1 0; page 9 - - => ready; entry 3.0; page 1.0 2.0 3.0
COMES create 3 n1 /side x:1 0; page 9 - 1 => ready; entry 3.0; page 2.0 3.0
";

/// A batch that may not run yet reads nothing.
const EARLY: &str = "
READS after 1; set_agent n1 x:1 => 
COMES after 1; set_agent n1 x:1 => refused W1 at 0
set_agent n1 x:1
READS after 1; set_agent n1 x:1 => agent n1
COMES after 1; set_agent n1 x:1 => ready; agent n1 1
";

/// The token is read first, and nothing else if a batch was committed with it.
const TOKEN: &str = "
READS token 7; create 1 n1 /web x:1 0 => token 7 | entry 1 | group n1 /web
COMES token 7; create 1 n1 /web x:1 0 => ready; entry 1.0
token 7; create 1 n1 /web x:1 0
delete 1
READS token 7; create 1 n1 /web x:1 0 => token 7
COMES token 7; create 1 n1 /web x:1 0 => repeated at 1; entry 1.0
READS token 7; create 1 n1 /web x:2 0 => token 7
COMES token 7; create 1 n1 /web x:2 0 => refused O9 at 2
READS token 8; create 1 n1 /web x:1 0 => token 8 | entry 1 | group n1 /web
";

#[test]
fn a_cycle_is_walked_once(rt: HostRuntime) -> Result<(), Fail> {
    plays(&rt, rt.alloc(), CYCLE)
}

#[test]
fn an_alias_is_walked_by_the_agents_that_hold_it(rt: HostRuntime) -> Result<(), Fail> {
    plays(&rt, rt.alloc(), ALIAS)
}

#[test]
fn an_operation_reads_what_the_earlier_ones_left(rt: HostRuntime) -> Result<(), Fail> {
    plays(&rt, rt.alloc(), BUNDLE)
}

#[test]
fn trust_reads_the_bundles_of_the_entries_found(rt: HostRuntime) -> Result<(), Fail> {
    plays(&rt, rt.alloc(), TRUST)
}

#[test]
fn a_read_that_shows_a_refusal_is_the_last_one(rt: HostRuntime) -> Result<(), Fail> {
    plays(&rt, rt.alloc(), REFUSED)
}

#[test]
fn a_page_reads_the_book_that_it_asks_for(rt: HostRuntime) -> Result<(), Fail> {
    plays(&rt, rt.alloc(), PAGES)
}

#[test]
fn a_batch_that_may_not_run_yet_reads_nothing(rt: HostRuntime) -> Result<(), Fail> {
    plays(&rt, rt.alloc(), EARLY)
}

#[test]
fn a_token_is_read_first(rt: HostRuntime) -> Result<(), Fail> {
    plays(&rt, rt.alloc(), TOKEN)
}
