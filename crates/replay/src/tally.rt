// Counts the cases of each call, those that differ, and the lines that are not understood.
ghost use Rattle.std.specs.Prelude.{◌≡◌, Some, OnOk, OnErr};
ghost use Rattle.std.specs.BTreeMap.{get, Updates, IsUnchanged};
ghost use Rattle.std.specs.Option.{unwrap_or};
ghost use Rattle.replay.specs.Tally.{none, more, counted};

use std::alloc::{AllocError, Global};
use std::collections::BTreeMap;
use std::fmt::Display;

#[derive(Clone, Copy)]
pub struct Count {
    pub cases: u64,
    pub differ: u64,
}

#[derive(Drop)]
pub struct Tally<K: Ord> {
    pub counts: BTreeMap<K, Count>,
    pub misread: u64,
}

impl<K: Ord + Copy + Display> Tally<K> {
    pub fn new(alloc: Global) -> Self {
        Tally {
            counts: BTreeMap::new(alloc),
            misread: 0,
        }
    }

    pub fn count(&self, call: K) -> Count
        ensures { result ≡ unwrap_or (get K.cmp self.now.counts call) none }
    {
        let none = Count {
            cases: 0,
            differ: 0,
        };
        self.counts.get(&call).copied().unwrap_or(none)
    }

    // No plainer: `is_same` is what is counted, and both counts go on by one call of it.
    pub fn count_case(&mut self, call: K, is_same: bool) -> Result<(), AllocError>
        ensures ok { OnOk result (Updates K.cmp self.old.counts self.new.counts call
            (Some (counted is_same (unwrap_or (get K.cmp self.old.counts call) none)))) }
        ensures err { OnErr result (IsUnchanged self.old.counts self.new.counts) }
        ensures misread_stays { self.new.misread ≡ self.old.misread }
    {
        let mut count = self.count(call);
        count.cases = count.cases.saturating_add(1);
        if !is_same {
            count.differ = count.differ.saturating_add(1);
        }
        self.counts.insert(call, count)?;
        Ok(())
    }

    pub fn count_misread(&mut self)
        ensures misread { self.new.misread ≡ more self.old.misread }
        ensures counts_stay { self.new.counts ≡ self.old.counts }
    {
        self.misread = self.misread.saturating_add(1);
    }

    // A call that the list does not name has no line, so a call that goes missing from a list, or comes into one, changes what is printed.
    // No plainer: each line begins with the list's name, which a tally does not hold.
    pub fn print(&self, rt: &impl Print, name: &str) {
        for (call, count) in &self.counts {
            let cases = count.cases;
            let differ = count.differ;
            let _ = println!(rt; "{name} {call}: {cases} cases, {differ} differ");
        }
        if self.counts.is_empty() {
            let _ = println!(rt; "{name}: no case");
        }
        let misread = self.misread;
        let _ = println!(rt; "{name}: {misread} lines not understood");
    }
}
