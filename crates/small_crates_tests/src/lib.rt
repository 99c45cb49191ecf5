//! What no clause says, tried over the public calls of the small crates: each has its module here,
//! since a crate with tests of its own is proved once more.
#![tactic(auto)]

#[cfg(test)]
mod of_escrow_journal;
#[cfg(test)]
mod of_escrow_work;
#[cfg(test)]
mod of_gift_ledger;
#[cfg(test)]
mod of_history;
#[cfg(test)]
mod of_line_words;
#[cfg(test)]
mod of_log_stand;
#[cfg(test)]
mod of_rebalance;
#[cfg(test)]
mod of_sealed_text;
#[cfg(test)]
mod of_statement_set;
#[cfg(test)]
mod of_trace_weave;
