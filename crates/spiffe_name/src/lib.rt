//! Which texts are names of workloads: trust domains, SPIFFE IDs and selectors.
//!
//! The types guarantee the grammar: `parse` accepts exactly the texts that the grammar spells, and returns the first
//! fault of any other text. Values never change. So the layers above don't validate names again.
//!
//! - [`TrustDomain`]: the name of a trust domain, such as `ex.org`.
//! - [`SpiffeId`]: a trust domain and a path, such as `spiffe://ex.org/web`. One ID has one text.
//! - [`Selector`]: one attribute of a process or a node, such as `unix:uid:1000`.
//! - [`SelectorSet`]: a finite set of selectors, each once, in order.
//! - [`IdRefusal`] and [`SelectorRefusal`]: why a text is refused, in the order in which the reasons are checked.
//! - [`Failure`]: the error of a call: a refusal, or out of memory.
//!
//! The definitions are in `specs/`: `Domain`, `Id` and `Selector` have the grammar, `SelectorOrder` and `SelectorSet` the order
//! and the sets of selectors, `Failures` the errors of calls, `Codes` the codes of refusals, and `Laws` the theorems.
//!
//! The rules are those of the SPIFFE-ID specification, narrowed in places: see `docs/NAMES.md`.
//!
//! `docs/GLOSSARY.md` explains the terms.
#![tactic(auto)]

mod laws;
mod refusals;
mod selector_set;
mod selectors;
mod spiffe_id;
mod trust_domain;

pub use laws::{
    one_id_has_one_text, one_selector_has_one_text, one_set_is_one_list, only_names_pass,
    set_has_members_of_list,
};
pub use refusals::{Failure, IdRefusal, SelectorRefusal};
pub use selector_set::SelectorSet;
pub use selectors::Selector;
pub use spiffe_id::SpiffeId;
pub use trust_domain::TrustDomain;
