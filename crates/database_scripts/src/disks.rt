//! Calls of the two disks while no database is open.

use crate::book::ROOM;
use crate::images::left_of;
use crate::resting::{Resting, Which, which_of};
use cfg_base::Calls;
use disk_model::{FailAt, FailMode};
use script_lines::{Arg, Fault, Text, number, small_number};
use std::alloc::Global;
use std::mem;
use std::sync::Wait;

/// The disks, unless a database is open, the calls that are to fail of the next disks that are made, and the journal's limit of
/// the next database.
#[derive(Drop)]
pub(crate) struct Disks {
    failing_a: Vec<FailAt>,
    failing_b: Vec<FailAt>,
    limit: u64,
    resting: Option<Resting>,
}

fn mode_of(word: &[u8]) -> Result<FailMode, Fault> {
    match word {
        b"effect" => Ok(FailMode::Effect),
        b"nothing" => Ok(FailMode::Nothing),
        _ => Err(Fault::Script("what fails has its effect or nothing")),
    }
}

impl Disks {
    /// Two that hold nothing.
    pub(crate) fn new(alloc: Global) -> Result<Disks, Fault> {
        let resting = Resting::fresh(alloc, Vec::new(alloc), Vec::new(alloc))?;
        Ok(Disks {
            failing_a: Vec::new(alloc),
            failing_b: Vec::new(alloc),
            limit: ROOM,
            resting: Some(resting),
        })
    }

    /// The disks that are at rest, in whose place stand none.
    pub(crate) fn take(&mut self) -> Option<Resting> {
        self.resting.take()
    }

    /// The journal's limit of the next database.
    pub(crate) fn limit(&self) -> u64 {
        self.limit
    }

    /// These disks are at rest from now on.
    pub(crate) fn put(&mut self, resting: Resting) {
        self.resting = Some(resting);
    }

    fn resting(&self) -> Result<&Resting, Fault> {
        match &self.resting {
            Some(resting) => Ok(resting),
            None => Err(Fault::Script("the database is closed")),
        }
    }

    /// fail a|b nothing|effect CALL ..
    fn fail(&mut self, which: &[u8], mode: &[u8], calls: &[Arg]) -> Result<(), Fault> {
        let mode = mode_of(mode)?;
        let failing = match which_of(which)? {
            Which::A => &mut self.failing_a,
            Which::B => &mut self.failing_b,
        };
        for call in calls {
            let call = small_number(call)?;
            failing.push(FailAt { call, mode })?;
        }
        Ok(())
    }

    /// limit BYTES
    fn take_limit(&mut self, limit: &[u8]) -> Result<(), Fault> {
        self.limit = number(limit)?;
        Ok(())
    }

    /// disks: two that hold nothing
    fn make(&mut self, alloc: Global) -> Result<(), Fault> {
        self.resting()?;
        let failing_a = mem::replace(&mut self.failing_a, Vec::new(alloc));
        let failing_b = mem::replace(&mut self.failing_b, Vec::new(alloc));
        let fresh = Resting::fresh(alloc, failing_a, failing_b)?;
        self.put(fresh);
        Ok(())
    }

    /// crash CALLS CALLS old|new|BYTE
    fn crash(&mut self, alloc: Global, a: &[u8], b: &[u8], left: &[u8]) -> Result<(), Fault> {
        let calls = Calls {
            a: number(a)?,
            b: number(b)?,
        };
        let left = left_of(left)?;
        let crashed = self.resting()?.crashed(alloc, calls, left)?;
        self.put(crashed);
        Ok(())
    }

    /// events
    fn say_events(&self, out: &mut Text) -> Result<(), Fault> {
        self.resting()?.say_events(out);
        Ok(())
    }

    /// found a|b CALL old|new|BYTE
    fn say_found<R: Wait>(
        &self,
        rt: &R,
        alloc: Global,
        which: &[u8],
        call: &[u8],
        left: &[u8],
        out: &mut Text,
    ) -> Result<(), Fault> {
        let which = which_of(which)?;
        let call = number(call)?;
        let left = left_of(left)?;
        self.resting()?
            .say_found_after(rt, alloc, which, call, left, out)
    }

    /// Answers a call of the disks.
    pub(crate) fn answer<R: Wait>(
        &mut self,
        rt: &R,
        alloc: Global,
        name: &str,
        args: &[Arg],
        out: &mut Text,
    ) -> Result<(), Fault> {
        match (name, args) {
            ("fail", [which, mode, calls @ ..]) => self.fail(which, mode, calls),
            ("limit", [limit]) => self.take_limit(limit),
            ("disks", []) => self.make(alloc),
            ("crash", [a, b, left]) => self.crash(alloc, a, b, left),
            ("events", []) => self.say_events(out),
            ("holds", []) => self.resting()?.say_holds(rt, alloc, out),
            ("found", [which, call, left]) => self.say_found(rt, alloc, which, call, left, out),
            _ => Err(Fault::Script("no such call, or not with as many words")),
        }
    }
}
