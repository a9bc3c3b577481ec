//! What is chosen for a program before it is written: a map, flags, labels and an entry.

ghost use Rattle.std.specs.Prelude.{◌≡◌, ◌+◌, ◌<◌, ◌≤◌, ◌^◌, if◌then◌else◌, IfOk, IfSome, Some, drop, length, slice_get};
ghost use Rattle.std.specs.List.{All};
ghost use Rattle.rv_image.specs.MemoryMap.{profile_with};
ghost use Rattle.obj_program.specs.Program.{count, item_of};
ghost use Rattle.cfi_closed.specs.Closed as closed;
ghost use Rattle.cfi_closed.specs.Closed.{is_target};
ghost use Rattle.cfi_leads.specs.Entries.{is_call};
ghost use Rattle.cfi_map.specs.GraphAtMap.{aim_of, arrival, arrival_to, entered_in, gate, gate_to, word};
ghost use Rattle.cfi_map.specs.LabelOf.{class_count, labels_of, site_label, tagged};
ghost use Rattle.cfi_map.specs.Placement.{whole_at};
ghost use Rattle.cfi_writer.specs.Accepted.{IsAccepted};
ghost use Rattle.cfi_writer.specs.Chosen.{AreStarts, instr_if, labels_before};
ghost use Rattle.cfi_writer.specs.Hardened.{chosen};
ghost use Rattle.cfi_writer.specs.Units.{entry_arrival};

use crate::labels::{label_at, label_or_zero, labels_from, site_labels};
use crate::numbering::label_starts;
use cfi_closed::Closed;
use cfi_leads::Leads;
use cfi_map::{Mapped, Spacing};
use obj_input::ItemKind;
use obj_program::Item;
use rv_image::{GraphVersion, Versions};
use rv_instr::Instr;
use rv_word::NoMemory;
use std::alloc::Global;
use std::marker::Model;

/// A program at a placement with the labels of its classes, of each side where its labels begin, and of each place the
/// label that its site asks for.
#[derive(Drop)]
pub struct Chosen<'c, 'a, 'b> {
    mapped: &'c Mapped<'a, 'b>,
    whole: &'c [bool],
    labels: &'c [u32],
    starts: Vec<u64>,
    sites: Vec<u32>,
}

impl<'c, 'a, 'b> Model for Chosen<'c, 'a, 'b> {
    ghost use Rattle.cfi_writer.specs.Chosen.{IsChosen};
    ghost use Rattle.cfi_writer.specs.Units.{Choice};

    ghost Value = { Choice };

    ghost view = { λ c. record { layout = c.mapped.now; whole = c.whole.now; labels = c.labels.now } };

    ghost invariant = { λ c. IsChosen (record { layout = c.mapped.now; whole = c.whole.now; labels = c.labels.now }) c.starts.items c.sites.items };
}

/// Whether a kind of place is a direct call's.
pub(crate) fn is_call(kind: ItemKind) -> bool
    ensures { result ≡ is_call kind }
{
    kind == ItemKind::Call
}

impl<'c, 'a, 'b> Chosen<'c, 'a, 'b> {
    /// What is chosen at a placement, with the labels of all classes in their order.
    pub fn of(
        alloc: Global,
        spacing: &'c Spacing<'a, 'b>,
        labels: &'c [u32],
    ) -> Result<Chosen<'c, 'a, 'b>, NoMemory>
        requires { IsAccepted (chosen spacing.now labels.now) }
        ensures { IfOk result (λ c. c ≡ chosen spacing.now labels.now) }
    {
        let mapped = spacing.mapped();
        let whole = spacing.whole();
        let closed = mapped.closed();
        let starts = label_starts(alloc, closed)?;
        let sites = site_labels(alloc, closed, labels, starts.as_slice())?;
        Ok(Chosen {
            mapped,
            whole,
            labels,
            starts,
            sites,
        })
    }

    /// The version of the graph that is written.
    pub(crate) fn version(&self) -> GraphVersion
        ensures { result ≡ self.now.layout.closed.version }
    {
        self.mapped.closed().version()
    }

    /// The versions of the image and of the graph that are written.
    #[tactic(auto, using(crate::proofs::WholeImage::versions_are))]
    pub(crate) fn versions(&self) -> Versions
        ensures { self.now.layout.profile ≡ profile_with result }
    {
        Versions {
            image: self.mapped.form().image_version(),
            graph: self.version(),
        }
    }

    /// How many places the program has.
    pub(crate) fn count(&self) -> u64
        ensures value { result ≡ count self.now.layout.program }
        ensures accepted { IsAccepted self.now }
    {
        self.mapped.count()
    }

    /// The closed graph.
    pub(crate) fn closed(&self) -> &'a Closed
        ensures value { result.now ≡ self.now.layout.closed }
        ensures accepted { IsAccepted self.now }
    {
        self.mapped.closed()
    }

    /// The program without its gates, with what stands before the units of its places.
    pub(crate) fn leads(&self) -> &Leads<'a, 'b>
        ensures { result.now ≡ entered_in self.now.layout }
    {
        self.mapped.leads()
    }

    /// The labels of all classes, in their order.
    fn labels(&self) -> &'c [u32]
        ensures value { result.now ≡ self.now.labels }
        ensures counted { length result.now ≡ length (tagged self.now.layout.closed.sides) }
        ensures small { All (λ label. label < 2 ^ 20) result.now }
    {
        self.labels
    }

    /// Of each side the index of its first label, and then how many labels there are.
    fn starts(&self) -> &[u64]
        ensures { AreStarts self.now.layout.closed.sides result.now }
    {
        self.starts.as_slice()
    }

    /// The labels of the side with this index and of those after it.
    pub(crate) fn labels_from(&self, j: usize) -> &[u32]
        requires { j < length self.now.layout.closed.sides }
        ensures value { result.now ≡ drop (labels_before self.now.layout.closed.sides j) self.now.labels }
        ensures small { All (λ label. label < 2 ^ 20) result.now }
        ensures enough { (side : closed.Side) → slice_get self.now.layout.closed.sides j ≡ Some side → class_count side ≤ length result.now }
    {
        let starts = self.starts();
        labels_from(self.labels(), starts[j])
    }

    /// How many labels the side with this index has.
    pub(crate) fn label_count(&self, j: usize) -> u64
        requires { j < length self.now.layout.closed.sides }
        ensures { (side : closed.Side) → slice_get self.now.layout.closed.sides j ≡ Some side → result ≡ class_count side }
    {
        let starts = self.starts();
        starts[j + 1] - starts[j]
    }

    /// The place with this index.
    pub(crate) fn item(&self, k: u64) -> Item
        requires { k < count self.now.layout.program }
        ensures { result ≡ item_of self.now.layout.program k }
    {
        self.mapped.item(k)
    }

    /// The gate of a place.
    pub(crate) fn gate(&self, k: u64) -> u64
        requires { k < count self.now.layout.program }
        ensures { result ≡ gate self.now.layout k }
    {
        self.mapped.gate(k)
    }

    /// The word of a place.
    pub(crate) fn word(&self, k: u64) -> u64
        requires { k < count self.now.layout.program }
        ensures { result ≡ word self.now.layout k }
    {
        self.mapped.word(k)
    }

    /// The gate of the place that a direct transfer at a place names; 0 where there is none.
    pub(crate) fn target(&self, k: u64) -> u64
        requires { k < count self.now.layout.program }
        ensures { result ≡ gate_to self.now.layout (item_of self.now.layout.program k).target }
    {
        let _count = self.count();
        match self.item(k).target {
            Some(target) => self.gate(target),
            None => 0,
        }
    }

    /// Where calls arrive at a place.
    fn arrival(&self, k: u64) -> u64
        requires { k < count self.now.layout.program }
        ensures { result ≡ arrival self.now.layout k }
    {
        self.mapped.arrival(k)
    }

    /// Where the direct call at a place leads; 0 where there is no target.
    pub(crate) fn callee(&self, k: u64) -> u64
        requires { k < count self.now.layout.program }
        ensures { result ≡ arrival_to self.now.layout (item_of self.now.layout.program k).target }
    {
        let _count = self.count();
        match self.item(k).target {
            Some(target) => self.arrival(target),
            None => 0,
        }
    }

    /// Where the direct transfer at a place leads.
    pub(crate) fn aim(&self, k: u64) -> u64
        requires { k < count self.now.layout.program }
        ensures { result ≡ aim_of self.now.layout (item_of self.now.layout.program k) }
    {
        if is_call(self.item(k).kind) {
            self.callee(k)
        } else {
            self.target(k)
        }
    }

    /// Where the jump stands, before the unit of a place, over what saves a site.
    pub(crate) fn jump_at(&self, k: u64) -> u64
        requires { k < count self.now.layout.program }
        ensures { result ≡ if is_target self.now.layout.closed.sides k then gate self.now.layout k + 4 else gate self.now.layout k }
    {
        let _count = self.mapped.count();
        let gate = self.gate(k);
        if self.closed().is_target(k) {
            gate + 4
        } else {
            gate
        }
    }

    /// Where the opening's call enters the program.
    pub(crate) fn entry_arrival(&self) -> u64
        ensures value { result ≡ entry_arrival self.now }
        ensures accepted { IsAccepted self.now }
    {
        let _count = self.mapped.count();
        self.mapped.arrival(self.mapped.entry())
    }

    /// The label of the class of the side with this index that has a place, if one has it.
    #[inline(always)]
    pub(crate) fn label_at(&self, j: usize, k: u64) -> Option<u32>
        requires { j < length self.now.layout.closed.sides }
        ensures value { slice_get (labels_of self.now.labels self.now.layout.closed.sides k) j ≡ Some result }
        ensures small { IfSome result (λ label. label < 2 ^ 20) }
    {
        let sides = self.closed().sides();
        label_at(&sides[j], self.labels_from(j), k)
    }

    /// The label that the site at a place asks for; 0 where no site stands.
    pub(crate) fn site_label(&self, k: u64) -> u32
        ensures value { result ≡ site_label self.now.labels self.now.layout.closed.sides k }
        ensures small { result < 2 ^ 20 }
    {
        label_or_zero(&self.sites, k)
    }

    /// Whether the unit of a place has its whole size.
    pub(crate) fn is_whole(&self, k: u64) -> bool
        ensures { result ≡ whole_at self.now.whole k }
    {
        self.whole.get(k as usize).copied().unwrap_or(true)
    }

    /// The instruction of a place; none at a section's end.
    pub(crate) fn instr(&self, k: u64) -> Option<Instr>
        requires { k < count self.now.layout.program }
        ensures { result ≡ instr_if self.now k }
    {
        if matches!(self.item(k).kind, ItemKind::End) {
            None
        } else {
            Some(self.mapped.instr(k))
        }
    }
}
