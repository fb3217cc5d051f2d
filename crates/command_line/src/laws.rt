//! What do the definitions say about concrete command lines?

ghost use Rattle.command_line.specs.Laws.{DomainApart, HelpIsRefused, JoinedDomain, JoinedRecord, JoinedSeed, NoSeed, NothingIsRefused, ExplainsWords, ProgramAlone, ServesOn, VersionIsAsked};

/// Theorems about the definitions, for every name of the program and every text D. The parser accepts `plain --domain=D` and
/// gives the text D of the domain, and the same holds of `plain --domain D` if D begins with a byte other than a hyphen. With
/// `--seed=S` the text of the seed is S, and without it 64 zeros. `schedule --domain=D --record` requests the records. A
/// request for help is refused, and so is `regd` alone.
pub fn a_line_gives_its_domain()
    ensures joined { JoinedDomain }
    ensures apart { DomainApart }
    ensures seed { JoinedSeed }
    ensures no_seed { NoSeed }
    ensures recorded { JoinedRecord }
    ensures help { HelpIsRefused }
    ensures nothing { NothingIsRefused }
{}

/// Theorems about the definitions, for every name of the program. `explain C` and `explain C F` request the explanation of C, for
/// texts C and F that begin with a byte other than a hyphen; `version` and `help` alone are requests; `--version` and `-V` ask for
/// the version; and `serve` without `--connections` requests a server without a last connection. The body is empty: a proof calls
/// the function to cite its contract.
pub fn a_line_without_a_book()
    ensures explained { ExplainsWords }
    ensures alone { ProgramAlone }
    ensures version { VersionIsAsked }
    ensures serves_on { ServesOn }
{}
