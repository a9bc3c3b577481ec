//! Where the unit at an address leads, and what it asks of the graph.

ghost use Rattle.std.specs.Prelude.{◌≡◌, ◌+◌, ◌%◌, ◌<◌, ◌≤◌, ◌^◌};
ghost use Rattle.cfi_starts.specs.Entries.{call_at, edge_at, enters_at, entry_at, gate_at, site_at};
ghost use Rattle.cfi_starts.specs.Starts.{profile_in};

use crate::entries::{call_in, edge_in, gate_in, is_enter, site_in};
use crate::starts::Starts;
use cfi_rules::Asks;
use cfi_scan::Entry;
use rv_image::profile::START;

impl<'a> Starts<'a> {
    /// Where the branch or the jump at an address leads.
    pub fn edge_at(&self, address: u64) -> Option<u64>
        requires { address < 2 ^ 32 }
        ensures { result ≡ edge_at (profile_in self.now) self.now.listing address }
    {
        edge_in(self.entry_at(address), address)
    }

    /// Where the opening or the call at an address leads.
    pub fn call_at(&self, address: u64) -> Option<u64>
        requires { address < 2 ^ 32 }
        ensures { result ≡ call_at (profile_in self.now) self.now.listing address }
    {
        self.call_from(address, self.entry_at(address))
    }

    /// The same, of the call with this entry.
    pub(crate) fn call_from(&self, address: u64, entry: Entry) -> Option<u64>
        requires small { address < 2 ^ 32 }
        requires here { entry ≡ entry_at (profile_in self.now) self.now.listing.entries address }
        ensures { result ≡ call_at (profile_in self.now) self.now.listing address }
    {
        if address == START {
            self.entry()
        } else {
            call_in(entry, address)
        }
    }

    /// What the computed transfer at an address asks for.
    pub fn site_at(&self, address: u64) -> Option<Asks>
        ensures { result ≡ site_at (profile_in self.now) self.now.listing address }
    {
        site_in(self.entry_at(address))
    }

    /// The label of the gate at an address.
    pub fn gate_at(&self, address: u64) -> Option<u32>
        ensures { result ≡ gate_at (profile_in self.now) self.now.listing address }
    {
        gate_in(self.entry_at(address))
    }

    /// The label of the gate so many bytes past an address.
    pub fn gate_past(&self, address: u64, bytes: u64) -> Option<u32>
        requires few { bytes ≤ 12 }
        requires round { bytes % 4 ≡ 0 }
        ensures { result ≡ gate_at (profile_in self.now) self.now.listing (address + bytes) }
    {
        gate_in(self.entry_past(address, bytes))
    }

    /// Whether what stands so many bytes past an address saves a site.
    pub fn enters_past(&self, address: u64, bytes: u64) -> bool
        requires few { bytes ≤ 12 }
        requires round { bytes % 4 ≡ 0 }
        ensures { result ≡ enters_at (profile_in self.now) self.now.listing (address + bytes) }
    {
        is_enter(self.entry_past(address, bytes))
    }
}
