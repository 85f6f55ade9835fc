ghost use Rattle.std.specs.Prelude.{◌≡◌, ◌≢◌, IfOk, OnOk, OnErr};
ghost use Rattle.pt_memhost.specs.declared.host.turns.Turn.TheVariants.{Passes};
ghost use Rattle.pt_memhost.specs.Story.{after_event};
ghost use Rattle.pt_memhost.specs.Memory.{world_in};
ghost use Rattle.pt_memhost.specs.Turns.{turn_of, Raised};
ghost use Rattle.pt_memhost.specs.Steps.{after_turn, running, HasFailed, refusing, starving};

use super::MemHost;
use crate::Event;
use pt_host::HostFail;
use pt_plain::List;

/// How a call goes.
#[derive(Clone, Copy)]
pub(crate) enum Turn {
    /// It is let through.
    Passes,
    /// Its number was ordered to fail.
    Ordered,
    /// The fuse is spent.
    Spent,
}

/// What a call is on.
#[derive(Clone, Copy)]
pub(crate) enum Side {
    Disk,
    Input,
    Output,
}

impl MemHost {
    /// Counts a call, and says how it goes.
    pub(super) fn turn(&mut self) -> Turn
        ensures turn { result ≡ turn_of self.old }
        ensures after { self.new ≡ after_turn self.old }
    {
        let number = self.calls;
        self.calls = number.saturating_add(1);
        if let Some(left) = self.fuse {
            if left == 0 {
                return Turn::Spent;
            }
            self.fuse = Some(left - 1);
        }
        if self.ordered.items().contains(&number) {
            Turn::Ordered
        } else {
            Turn::Passes
        }
    }

    /// Counts a call, and fails it unless it is let through.
    pub(super) fn pass(&mut self, side: Side) -> Result<(), HostFail>
        ensures ok { OnOk result (self.new ≡ after_turn self.old) }
        ensures passes { OnOk result (turn_of self.old ≡ Passes) }
        ensures err { OnErr result (self.new ≡ refusing side (after_turn self.old)) }
        ensures refused { OnErr result (turn_of self.old ≢ Passes) }
        ensures failed { OnErr result (HasFailed side self.old.counts self.new.counts) }
    {
        match self.turn() {
            Turn::Passes => Ok(()),
            Turn::Ordered | Turn::Spent => Err(self.refuse(side)),
        }
    }

    /// Raises the count of failures of a side.
    pub(super) fn refuse(&mut self, side: Side) -> HostFail
        ensures value { self.new ≡ refusing side self.old }
        ensures failed { HasFailed side self.old.counts self.new.counts }
    {
        match side {
            Side::Disk => self.disk_faults = self.disk_faults.saturating_add(1),
            Side::Input => self.in_faults = self.in_faults.saturating_add(1),
            Side::Output => self.out_faults = self.out_faults.saturating_add(1),
        }
        HostFail::Failed
    }

    /// Raises the count of failures of a side, and that of wants of memory.
    pub(super) fn starve(&mut self, side: Side) -> HostFail
        ensures value { self.new ≡ starving side self.old }
        ensures starved { Raised self.old.starved self.new.starved }
        ensures failed { HasFailed side self.old.counts self.new.counts }
    {
        self.starved = self.starved.saturating_add(1);
        self.refuse(side)
    }

    /// Does what an event says.
    pub(super) fn run(&mut self, side: Side, event: Event) -> Result<(), HostFail>
        ensures ok { OnOk result (self.new ≡ running self.old event) }
        ensures world { OnOk result (world_in self.new ≡ after_event event (world_in self.old)) }
        ensures err { OnErr result (self.new ≡ starving side self.old) }
        ensures starved { OnErr result (Raised self.old.starved self.new.starved) }
        ensures failed { OnErr result (HasFailed side self.old.counts self.new.counts) }
    {
        match self.kept.run(event) {
            Ok(()) => Ok(()),
            Err(_) => Err(self.starve(side)),
        }
    }

    /// A copy of these bytes.
    pub(super) fn copy(&mut self, side: Side, bytes: &[u8]) -> Result<List<u8>, HostFail>
        ensures ok { IfOk result (λ copy. copy ≡ bytes.now) }
        ensures same { OnOk result (self.new ≡ self.old) }
        ensures err { OnErr result (self.new ≡ starving side self.old) }
        ensures starved { OnErr result (Raised self.old.starved self.new.starved) }
        ensures failed { OnErr result (HasFailed side self.old.counts self.new.counts) }
    {
        match List::from_slice(self.alloc, bytes) {
            Ok(copy) => Ok(copy),
            Err(_) => Err(self.starve(side)),
        }
    }
}
