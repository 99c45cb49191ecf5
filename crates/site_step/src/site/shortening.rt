//! Letting go of the front of a log.

ghost use Rattle.std.specs.Prelude.{◌≡◌, ◌≤◌, ◌++◌, List, true, length, reverse, slice_get, IfOk, IfSome, IfNone};
ghost use Rattle.std.specs.List.{flat_map};
ghost use Rattle.field_bounds.specs.Effects.{open_txns};
ghost use Rattle.field_bounds.specs.Owed.{is_up};
ghost use Rattle.kept_records.specs.declared.record.Record.{Record};
ghost use Rattle.kept_records.specs.Text.{text};
ghost use Rattle.site_step.specs.Site.{base_of, here};
ghost use Rattle.site_step.specs.Shortening.{held_of, latest_commit, IsShortening, CanGo};

use super::Site;
use crate::front::{FrontRecords, front_end, read_front};
use field_bounds::{Entry, TxnId};
use history::{History, Unkept};
use kept_records::{Medium, MemoryMedium, Record};
use std::alloc::{AllocError, Global};
use std::marker::Model;

/// What goes and what stays where a log is shortened at a summary. Contracts see the bytes that
/// stay, the records that go, how many they are, summaries left out, and the greatest transaction
/// whose commit goes.
///
/// Source: this project.
#[derive(Drop)]
pub struct Shortening {
    held: Vec<u8>,
    // What is in it only proofs see.
    gone: Unkept<Record>,
    records: u64,
    latest: TxnId,
}

impl Model for Shortening {
    ghost use Rattle.site_step.specs.Shortening.{ShorteningValue};

    ghost Value = { ShorteningValue };

    ghost view = { λ p. record {
      held = p.held.items;
      gone = p.gone.items;
      records = p.records;
      latest = p.latest;
    } };
}

impl Shortening {
    /// The bytes that stay, whose first line is the base's. Takes no memory.
    pub fn held(&self) -> &[u8]
        ensures all { result.now ≡ self.now.held }
    {
        &self.held
    }

    /// How many records go, summaries left out. Takes no memory.
    pub fn records(&self) -> u64
        ensures value { result ≡ self.now.records }
    {
        self.records
    }

    /// The greatest transaction whose commit goes; 0.0 where none does. Takes no memory.
    pub fn latest(&self) -> TxnId
        ensures value { result ≡ self.now.latest }
    {
        self.latest
    }
}

impl<H: History<Entry>> Site<MemoryMedium, H> {
    /// What would be let go and what would stay, where the log is shortened at the last summary
    /// behind whose line at least `keep` bytes stand, and another summary among them: so that at
    /// least 1,000 records stay. None where there is no such summary, or none but the first record
    /// that is held, or the site is down. `AllocError`: memory is wanting.
    ///
    /// Costs a look back over what stays, for its summaries; a pass over what would go; and a copy of
    /// what stays, with memory for it, and for a summary that would go and the escrows of a commit.
    ///
    /// Source: this project.
    pub fn shortening(&self, alloc: Global, keep: usize) -> Result<Option<Shortening>, AllocError>
        ensures some { IfOk result (λ told. IfSome told (λ plan. IsShortening self.now plan)) }
        ensures keep { IfOk result (λ told. IfSome told (λ plan. keep ≤ length plan.held)) }
        ensures latest { IfOk result (λ told. IfSome told (λ plan. plan.latest
            ≡ latest_commit plan.gone)) }
        ensures can { IfOk result (λ told. IfSome told (λ plan. CanGo (held_of self.now) keep
            plan.gone)) }
        ensures most { IfOk result (λ told. IfSome told (λ plan. (gone : List Record)
            → CanGo (held_of self.now) keep gone
            → length (flat_map text gone) ≤ length (flat_map text plan.gone))) }
        ensures none { IfOk result (λ told. IfNone told (is_up (base_of self.now) self.now.history
            ≡ true → (gone : List Record) → CanGo (held_of self.now) keep gone → ⊥)) }
    {
        if !self.up {
            return Ok(None);
        }
        let bytes = self.medium.bytes();
        let Some(end) = front_end(bytes, keep) else {
            return Ok(None);
        };
        let FrontRecords {
            gone,
            records,
            latest,
        } = read_front(alloc, &bytes[..end])?;
        let held = Vec::from_slice(alloc, &bytes[end..])?;
        Ok(Some(Shortening {
            held,
            gone,
            records,
            latest,
        }))
    }

    /// Lets go of these records: the medium holds them no longer. What the site answers, and what it
    /// stands on, stays as it is. The memory of the old medium is given back. Takes no memory.
    pub fn shorten(&mut self, plan: Shortening)
        requires plan { IsShortening self.old plan }
        ensures same { self.new ≡ record self.old { gone = self.old.gone ++ plan.gone } }
    {
        let Shortening {
            held,
            gone,
            records: _,
            latest: _,
        } = plan;
        self.extent.length = held.len();
        self.medium = MemoryMedium::new(held);
        self.gone = self.gone.joined(&gone);
    }
}

impl<M: Medium, H: History<Entry>> Site<M, H> {
    /// The n-th open transaction in order of begin, from 0, and None where no more than n are open,
    /// of a site that is up. At most 64 are. Takes no memory.
    pub fn open_txn(&self, n: usize) -> Option<TxnId>
        requires up { is_up (base_of self.now) self.now.history ≡ true }
        ensures value { result ≡ slice_get (reverse (open_txns (here self.now).effects)) n }
    {
        self.accounts.journal.txn_at(n)
    }
}
