//! Theorems about the grammar of names, for callers that compare names or check texts. The bodies are empty: a proof calls a
//! function to cite its contract.

ghost use Rattle.spiffe_name.specs.Laws.{DomainsPass, EqualSelectorsAreOne, IdsPass, OneIdOfText, OneListOfSet, OneSelectorOfText, OneTextOfId, OneTextOfSelector, SelectorsPass, SetOfList};

/// One ID has one text: a text spells at most one trust domain and one list of segments, and two texts that spell the
/// same are equal. So comparing texts compares IDs.
pub fn one_id_has_one_text()
    ensures id { OneIdOfText }
    ensures text { OneTextOfId }
{}

/// One selector has one text, likewise. Two selectors compare as equal exactly if they are the same.
pub fn one_selector_has_one_text()
    ensures selector { OneSelectorOfText }
    ensures text { OneTextOfSelector }
    ensures equal { EqualSelectorsAreOne }
{}

/// One set is one list: sets with the same members are equal lists.
pub fn one_set_is_one_list()
    ensures { OneListOfSet }
{}

/// The set of a list has the members of the list, each once, in order.
pub fn set_has_members_of_list()
    ensures { SetOfList }
{}

/// Which texts are refused: exactly those that aren't names of the grammar.
pub fn only_names_pass()
    ensures domains { DomainsPass }
    ensures ids { IdsPass }
    ensures selectors { SelectorsPass }
{}
