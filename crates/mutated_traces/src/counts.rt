//! How often each verdict came.

use crate::verdicts::Told;
use central_machine::{Rule, Verdict};

/// The traces that were legal, those in which each rule was the first that was broken, and those
/// that the calls didn't judge alike.
#[derive(Drop)]
pub struct Counts {
    pub legal: u64,
    pub site: u64,
    pub grant: u64,
    pub shortage: u64,
    pub interval: u64,
    pub statement: u64,
    pub reply: u64,
    pub unlike: u64,
}

fn count(number: &mut u64) {
    *number = number.saturating_add(1);
}

impl Counts {
    pub fn new() -> Counts {
        Counts {
            legal: 0,
            site: 0,
            grant: 0,
            shortage: 0,
            interval: 0,
            statement: 0,
            reply: 0,
            unlike: 0,
        }
    }

    fn note_rule(&mut self, rule: Rule) {
        match rule {
            Rule::Site => count(&mut self.site),
            Rule::Grant => count(&mut self.grant),
            Rule::Shortage => count(&mut self.shortage),
            Rule::Interval => count(&mut self.interval),
            Rule::Statement => count(&mut self.statement),
            Rule::Reply => count(&mut self.reply),
        }
    }

    /// Counts a verdict.
    pub fn note(&mut self, told: Told) {
        if !told.alike {
            count(&mut self.unlike);
        }
        match told.verdict {
            Verdict::Legal => count(&mut self.legal),
            Verdict::Illegal { rule, .. } => self.note_rule(rule),
        }
    }

    /// All verdicts.
    pub fn all(&self) -> u64 {
        let fields = self
            .grant
            .saturating_add(self.shortage)
            .saturating_add(self.interval);
        let rest = self
            .site
            .saturating_add(self.statement)
            .saturating_add(self.reply);
        self.legal.saturating_add(fields).saturating_add(rest)
    }

    /// Whether some trace was legal, and each rule the first that was broken in some.
    pub fn has_each(&self) -> bool {
        self.legal > 0
            && self.site > 0
            && self.grant > 0
            && self.shortage > 0
            && self.interval > 0
            && self.statement > 0
            && self.reply > 0
    }
}
