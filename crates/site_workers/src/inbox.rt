//! A courier's inbox: a bounded channel under a rule. Each Stated letter in the queue or among
//! those taken was put by the worker of the site that it names as its giver, and each site's name
//! belongs to one way at most. Four kinds of step keep the rule: a worker's way is cut from the
//! maker's, a courier's way is, a letter is put, a letter is taken.

ghost use Rattle.std.specs.Prelude.{◌≡◌, ◌<◌, IfOk, IfErr, OnOk, IfSome, IfNone};
ghost use Rattle.crossbeam_channel.specs.Claims.{view, IsSeatAt};
ghost use Rattle.crossbeam_channel.specs.Ends.{sends_on, receives_on};
ghost use Rattle.site_workers.specs.Inboxes.{after_put, after_take, first_maker, maker_after, MayPut, new_courier, next_worker};
ghost use Rattle.site_workers.specs.declared.inbox.Role.TheVariants.{Maker};

use crossbeam_channel::protocol::{Lesson, Outcome, Protocol, Split};
use crossbeam_channel::{Pass, RuledReceiver, RuledSender, bounded_with};
use field_bounds::{SiteNo, Statement};
use std::alloc::{AllocError, Global};
use std::collections::LinkedList;
use std::sync::Wait;

/// What goes into an inbox.
///
/// Source: Balegas and others 2015 for statements, this project for the end.
#[derive(Clone, Copy, PartialEq, Eq, Debug)]
pub enum Letter {
    /// A statement that a worker got.
    Stated(Statement),
    /// The worker of this site puts no more.
    End(SiteNo),
}

/// The most letters that wait in an inbox.
pub const INBOX_LETTERS: usize = 1_024;

/// Whose a way is. No value of it is made.
pub enum Role {
    /// The maker of the inbox, from whose way all others are cut.
    Maker,
    /// The worker of this site, which may put what it states.
    Worker(SiteNo),
    /// The courier, or anyone else: no statement may be put on such a way.
    Courier,
}

/// What a way knows: whose it is, how many workers' ways were cut from it, and what was put and
/// taken on it, in order. No value of it is made.
pub struct View {
    pub role: Role,
    pub made: u64,
    pub put: LinkedList<Letter>,
    pub taken: LinkedList<Letter>,
}

/// The rule of an inbox.
pub struct InboxRule;

impl Protocol<Letter, View> for InboxRule {
    ghost use Rattle.site_workers.specs.Inboxes.{IsKept, first_maker};

    ghost holds = { IsKept };

    ghost first = { first_maker };
}

/// How a worker's way is cut. From any way but the maker's it cuts one that is nobody's.
pub struct Hires;

impl Split<View> for Hires {
    ghost use Rattle.site_workers.specs.Inboxes.{hire_leaves, hire_cuts};

    ghost left = { hire_leaves };

    ghost right = { hire_cuts };
}

/// How a courier's way is cut.
pub struct Admits;

impl Split<View> for Admits {
    ghost use Rattle.site_workers.specs.Inboxes.{new_courier};

    ghost left = { λ v. v };

    ghost right = { λ v. new_courier };
}

/// What putting a letter tells its way.
pub struct Puts;

impl Outcome<Letter, View> for Puts {
    ghost use Rattle.std.specs.Prelude.{◌≡◌};
    ghost use Rattle.site_workers.specs.Inboxes.{after_put};

    ghost then = { λ v x w. w ≡ after_put v x };
}

impl Lesson<Letter, View> for Puts {
    ghost fact = { λ v items. Unit {0} };
}

/// What taking a letter tells its way.
pub struct Takes;

impl Outcome<Letter, View> for Takes {
    ghost use Rattle.std.specs.Prelude.{◌≡◌};
    ghost use Rattle.site_workers.specs.Inboxes.{after_take};

    ghost then = { λ v x w. w ≡ after_take v x };
}

impl Lesson<Letter, View> for Takes {
    ghost fact = { λ v items. Unit {0} };
}

/// A pass of an inbox: what its holder has put and taken there. It can't be copied, and takes no
/// bytes.
pub type Way = Pass<Letter, View>;

/// The end of an inbox into which letters are put.
pub type Slot = RuledSender<Letter, View, InboxRule>;

/// The end of an inbox from which its courier takes letters.
pub type Inbox = RuledReceiver<Letter, View, InboxRule>;

/// Makes an inbox for at most 1,024 letters that wait, with the way of its maker, who is no worker.
/// No other way of its maker's is ever there, so no site's name is given twice.
/// The error is want of memory, which it takes for all letters at once.
pub fn open_inbox(alloc: Global) -> Result<(Slot, Inbox, Way), AllocError>
    ensures ends { IfOk result (λ r. receives_on r.1 ≡ sends_on r.0) }
    ensures seat { IfOk result (λ r. IsSeatAt (sends_on r.0) r.2) }
    ensures view { IfOk result (λ r. view r.2 ≡ first_maker) }
{
    bounded_with::<Letter, View, InboxRule, Global>(alloc, INBOX_LETTERS)
}

/// Cuts the way of the next worker from the maker's: the first made is that of site 0. Costs no
/// memory.
pub fn hire(slot: &Slot, way: &mut Way) -> Way
    requires seat { IsSeatAt (sends_on slot.now) way.old }
    requires role { (view way.old).role ≡ Maker }
    ensures seat { IsSeatAt (sends_on slot.now) way.new }
    ensures own { IsSeatAt (sends_on slot.now) result }
    ensures maker { view way.new ≡ maker_after (view way.old) }
    ensures worker { view result ≡ next_worker (view way.old) }
{
    slot.another::<Hires>(way)
}

/// Cuts a courier's way from the maker's: no statement may be put on it. Costs no memory.
pub fn admit(slot: &Slot, way: &mut Way) -> Way
    requires seat { IsSeatAt (sends_on slot.now) way.old }
    requires role { (view way.old).role ≡ Maker }
    ensures seat { IsSeatAt (sends_on slot.now) way.new }
    ensures own { IsSeatAt (sends_on slot.now) result }
    ensures same { view way.new ≡ view way.old }
    ensures view { view result ≡ new_courier }
{
    slot.another::<Admits>(way)
}

/// Puts a letter, or hands it back where the courier is gone. Waits while the inbox is full, so
/// never call it under a lock. A Stated letter is put by the worker of the site that it names as
/// its giver alone; an End is free. Costs no memory.
pub fn put<R: Wait>(rt: &R, slot: &Slot, way: &mut Way, letter: Letter) -> Result<(), Letter>
    requires seat { IsSeatAt (sends_on slot.now) way.old }
    requires may { MayPut (view way.old) letter }
    ensures seat { IsSeatAt (sends_on slot.now) way.new }
    ensures put { OnOk result (view way.new ≡ after_put (view way.old) letter) }
    ensures back { IfErr result (λ back. (back ≡ letter) × (view way.new ≡ view way.old)) }
{
    match slot.send_as::<Puts, R>(rt, way, letter) {
        Ok(()) => Ok(()),
        Err(refused) => Err(refused.into_inner()),
    }
}

/// Takes the next letter, and waits for one. None where all that could put one are gone. Costs no
/// memory.
pub fn take<R: Wait>(rt: &R, inbox: &Inbox, way: &mut Way) -> Option<Letter>
    requires seat { IsSeatAt (receives_on inbox.now) way.old }
    ensures seat { IsSeatAt (receives_on inbox.now) way.new }
    ensures some { IfSome result (λ x. view way.new ≡ after_take (view way.old) x) }
    ensures none { IfNone result (view way.new ≡ view way.old) }
{
    inbox.recv_as::<Takes, R>(rt, way).ok()
}
