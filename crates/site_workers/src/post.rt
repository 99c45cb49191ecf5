//! What a worker, a courier and the caller hold of an inbox.

ghost use Rattle.std.specs.Prelude.{◌≡◌, ◌+◌, IfOk, OnOk};
ghost use Rattle.crossbeam_channel.specs.Claims.{view, IsSeatAt};
ghost use Rattle.crossbeam_channel.specs.Ends.{sends_on, receives_on};
ghost use Rattle.site_workers.specs.declared.inbox.Role.TheVariants.{Maker, Worker, Courier};

use crate::inbox::{Inbox, Letter, Slot, Way, admit, hire, put};
use field_bounds::{SiteNo, Statement};
use std::alloc::AllocError;
use std::sync::Wait;

/// A worker's end of an inbox, its own or another site's, with the worker's site.
#[derive(Drop)]
pub(crate) struct Post {
    pub slot: Slot,
    pub way: Way,
    pub site: SiteNo,
    ghost seated: { IsSeatAt (sends_on slot) way },
    ghost named: { (view way).role ≡ Worker site },
}

impl Post {
    /// Puts a statement of this worker. One of another site, of which a site's step issues none, is
    /// left out, and so is one whose courier is gone.
    pub fn put_stated<R: Wait>(&mut self, rt: &R, statement: Statement) {
        let Post { slot, way, site } = self;
        if statement.from == *site {
            let _ = put(rt, slot, way, Letter::Stated(statement));
        }
    }

    /// Tells the courier, where it isn't gone, that this worker puts no more.
    pub fn put_end<R: Wait>(&mut self, rt: &R) {
        let Post { slot, way, site } = self;
        let _ = put(rt, slot, way, Letter::End(*site));
    }
}

/// Tells all couriers that this worker puts no more, and lets go of its ends of their inboxes: an
/// inbox that nobody puts into any more is closed, so no courier waits for ever.
pub(crate) fn end_all<R: Wait>(rt: &R, posts: Vec<Post>) {
    let mut posts = posts;
    for post in posts.iter_mut() {
        post.put_end(rt);
    }
}

/// A courier's end of its inbox.
#[derive(Drop)]
pub(crate) struct Mail {
    pub inbox: Inbox,
    pub way: Way,
    ghost seated: { IsSeatAt (receives_on inbox) way },
    ghost courier: { (view way).role ≡ Courier },
}

/// The caller's end of an inbox, whose maker it is: from its way all others are cut, and on it the
/// Ends of workers are put that can't be made.
#[derive(Drop)]
pub(crate) struct Spare {
    pub slot: Slot,
    pub way: Way,
    ghost seated: { IsSeatAt (sends_on slot) way },
    ghost maker: { (view way).role ≡ Maker },
}

impl Spare {
    /// Hires the next site's worker: its end of the inbox.
    pub fn hire(&mut self, site: SiteNo) -> Result<Post, AllocError>
        requires next { (view self.old.way).made ≡ site.0 }
        ensures inbox { sends_on self.new.slot ≡ sends_on self.old.slot }
        ensures end { IfOk result (λ post. sends_on post.slot ≡ sends_on self.old.slot) }
        ensures worker { IfOk result (λ post. (view post.way).role ≡ Worker site) }
        ensures made { OnOk result ((view self.new.way).made ≡ (view self.old.way).made + 1) }
    {
        let Spare { slot, way } = self;
        let end = slot.try_clone()?;
        let own = hire(slot, way);
        Ok(Post {
            slot: end,
            way: own,
            site,
        })
    }

    /// The courier's end of the inbox, from which it takes.
    pub fn admit(&mut self, inbox: Inbox) -> Mail
        requires same { receives_on inbox ≡ sends_on self.old.slot }
        ensures inbox { sends_on self.new.slot ≡ sends_on self.old.slot }
        ensures made { (view self.new.way).made ≡ (view self.old.way).made }
    {
        let Spare { slot, way } = self;
        let own = admit(slot, way);
        Mail { inbox, way: own }
    }

    /// Tells the courier that the worker of this site puts no more.
    pub fn put_end<R: Wait>(&mut self, rt: &R, site: SiteNo) {
        let Spare { slot, way } = self;
        let _ = put(rt, slot, way, Letter::End(site));
    }
}

/// Tells all couriers that the worker of this site, which can't be made, puts no more.
pub(crate) fn end_for<R: Wait>(rt: &R, spares: &mut Vec<Spare>, site: SiteNo) {
    for spare in spares.iter_mut() {
        spare.put_end(rt, site);
    }
}
