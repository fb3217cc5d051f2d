//! What follows from the contracts of a seat's calls?

ghost use Rattle.shared_registry.specs.OneList.{AreOneList};
ghost use Rattle.shared_registry.specs.Outcomes.{CommitsMayBeSeen, ConflictsTakeCommits, OvertakenAreHit, RepeatsAreSeen};

use crate::history::RegistryId;
use crate::seat::{Receipt, Seat};

/// After a commit a seat may answer queries on what it has found, without a look. This function does nothing at run time:
/// its contract is the theorem.
pub fn commits_law()
    ensures { CommitsMayBeSeen }
{}

/// A conflict takes commits: what a seat has seen after a call of some tries that ended with a conflict has at least so many items
/// more than before it. This function does nothing at run time: its contract is the theorem.
pub fn conflicts_take_commits()
    ensures { ConflictsTakeCommits }
{}

/// If a history begins with the empty book, a conflict is with a batch that was committed after as many batches as there were where the
/// try began, and not after more than the conflict's number says. This function does nothing at run time: its contract is the theorem.
pub fn overtaken_law()
    ensures { OvertakenAreHit }
{}

/// If a history begins with the empty book, each repeat is of an item that was seen, since the empty book stores no batch. This
/// function does nothing at run time: its contract is the theorem.
pub fn repeats_law()
    ensures { RepeatsAreSeen }
{}

/// Two seats of a registry have seen prefixes of one list, though they may never have exchanged a receipt: one is a prefix of the
/// other. So a place that both have seen has the same commit for both, after the same commits. This function does nothing at
/// run time: its contract is the theorem.
pub fn one_list<J: RegistryId>(one: &Seat<J>, other: &Seat<J>)
    ensures { AreOneList one.now.seen other.now.seen }
{
    one.prefix().agree(other.prefix());
}

/// The same of two receipts of a registry. This function does nothing at run time: its contract is the theorem.
pub fn one_list_of_receipts<J: RegistryId>(receipt: &Receipt<J>, other: &Receipt<J>)
    ensures { AreOneList receipt.now other.now }
{
    receipt.prefix().agree(other.prefix());
}

/// The same of a seat and a receipt of a registry. This function does nothing at run time: its contract is the theorem.
pub fn one_list_with_receipt<J: RegistryId>(seat: &Seat<J>, receipt: &Receipt<J>)
    ensures { AreOneList seat.now.seen receipt.now }
{
    seat.prefix().agree(receipt.prefix());
}
